// The calls that walk over the records of an index and the lines of a text.
ghost use Rattle.std.specs.Prelude.{◌≡◌};
ghost use Rattle.store.specs.Walks.{record_at, next_line};
ghost use Rattle.exports.specs.FlatWalks.{flat_line_record, flat_share_record, flat_told, flat_record, flat_cut};

use store::walk::{Cut, LineRecord, Record, ShareRecord, Stands};
use text::uuid::Uuid;

// A record, if there is one: of a share, or of a line, where it lies in the text. `size` is the bytes of the record.
#[repr(C)]
#[derive(Clone, Copy)]
pub struct FlatRecord {
    pub found: bool,
    pub is_share: bool,
    pub owner: u8,
    pub id: Uuid,
    pub offset: usize,
    pub len: usize,
    pub share: usize,
    pub size: usize,
}

// A line, if there is one: its length, and where the next one starts.
#[repr(C)]
#[derive(Clone, Copy)]
pub struct FlatCut {
    pub found: bool,
    pub len: usize,
    pub next: usize,
}

impl FlatRecord {
    // What stands where there is no record.
    pub const NONE: FlatRecord = FlatRecord {
        found: false,
        is_share: false,
        owner: 0,
        id: Uuid { high: 0, low: 0 },
        offset: 0,
        len: 0,
        share: 0,
        size: 0,
    };
}

// The record of a line, of that many bytes.
fn flat_line_record(line: LineRecord, size: usize) -> FlatRecord
    ensures { result ≡ flat_line_record line size }
{
    let key = line.key;
    FlatRecord {
        found: true,
        is_share: false,
        owner: key.owner,
        id: key.uuid,
        offset: line.off,
        len: line.len,
        share: 0,
        size,
    }
}

// The record of a share, of that many bytes.
fn flat_share_record(share: ShareRecord, size: usize) -> FlatRecord
    ensures { result ≡ flat_share_record share size }
{
    FlatRecord {
        found: true,
        is_share: true,
        owner: share.owner,
        id: Uuid { high: 0, low: 0 },
        offset: 0,
        len: 0,
        share: share.share,
        size,
    }
}

// The record of a line or a share, of that many bytes.
fn flat_told(told: Record, size: usize) -> FlatRecord
    ensures { result ≡ flat_told told size }
{
    match told {
        Record::Line(line) => flat_line_record(line, size),
        Record::Share(share) => flat_share_record(share, size),
    }
}

impl From<Option<Stands>> for FlatRecord {
    ghost from_gives = { λ s f. f ≡ flat_record s };

    fn from(stands: Option<Stands>) -> FlatRecord {
        match stands {
            None => FlatRecord::NONE,
            Some(stands) => flat_told(stands.told, stands.size),
        }
    }
}

impl From<Option<Cut>> for FlatCut {
    ghost from_gives = { λ c f. f ≡ flat_cut c };

    fn from(cut: Option<Cut>) -> FlatCut {
        match cut {
            None => FlatCut {
                found: false,
                len: 0,
                next: 0,
            },
            Some(cut) => FlatCut {
                found: true,
                len: cut.len,
                next: cut.next,
            },
        }
    }
}

#[unsafe(no_mangle)]
pub extern "C" fn raspteal_store_record_at(index: &[u8], at: usize) -> FlatRecord
    ensures { result ≡ flat_record (record_at index.now at) }
{
    store::walk::record_at(index, at).into()
}

#[unsafe(no_mangle)]
pub extern "C" fn raspteal_next_line(lines: &[u8], at: usize) -> FlatCut
    ensures { result ≡ flat_cut (next_line lines.now at) }
{
    store::walk::next_line(lines, at).into()
}

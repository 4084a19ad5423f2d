// The records of an index: one told, read and written. A change of the record's form changes this file alone.
ghost use Rattle.std.specs.Prelude.{◌≡◌, true, false, ◌++◌, ◌+◌, ◌≤◌, length, drop};
ghost use Rattle.std.proofs.Math.Option.{some};
ghost use Rattle.text.specs.Bytes.{pick, written};
ghost use Rattle.store.specs.Held.{size_by};
ghost use Rattle.store.specs.Layout.{kind_by, offset_width, record_bytes};
ghost use Rattle.store.specs.Decode.{kind, offset_at, body_at, kind_at, no_head, head_at};
ghost use Rattle.store.specs.Inner.{body_size, offset_bytes, body_bytes_of, HasRecord, HasKind, TellsRecord, NotShort, Starts, Sized};

use crate::bytes::{put_u32, put_u64, put_word, u32_at, u64_at, word_at};
use crate::parties::Key;
use text::uuid::Uuid;

// The greatest number that a short record holds, of an offset and of a share.
pub const SHORT_MAX: usize = 65535;

// The bytes of a record of the hall: the kind, and a body; and of an organiser: the kind, the owner, and a body. Where
// the offset is long, both have two more.
pub const HALL_SIZE: usize = 21;

pub const OWNED_SIZE: usize = 22;

// What the record at an index's front says; size 0 where no whole one stands there, as the definition of a walk over a
// store has it: no Option, since that definition stays.
#[derive(Clone, Copy)]
pub struct Head {
    pub size: usize,
    pub key: Key,
    pub off: usize,
    pub len: usize,
}

// What a record's kind tells: whose it is, and whether its offset has four bytes, for two.
#[derive(Clone, Copy)]
pub struct Kind {
    pub owner: u8,
    pub long: bool,
}

// What a record says after its kind and owner.
#[derive(Clone, Copy)]
pub struct Body {
    pub uuid: Uuid,
    pub off: usize,
    pub len: usize,
}

// The bytes of an offset.
fn offset_width(long: bool) -> usize
    ensures { result ≡ offset_width long }
{
    if long {
        return 4;
    }
    2
}

// Writes the offset of a body; of a larger number its last bytes.
fn put_offset(s: &mut [u8], long: bool, off: usize)
    requires { body_size long ≤ length s.old }
    ensures { s.new ≡ written s.old 16 (offset_bytes long off) }
{
    if long {
        put_u32(s, 16, (off % 4294967296) as u32);
        return;
    }
    put_word(s, 16, off);
}

// Writes the body of a record.
fn put_body(s: &mut [u8], long: bool, uuid: Uuid, off: usize, len: usize)
    requires { body_size long ≤ length s.old }
    ensures { s.new ≡ body_bytes_of long uuid off len ++ drop (body_size long) s.old }
{
    put_u64(s, 0, uuid.high);
    put_u64(s, 8, uuid.low);
    put_offset(s, long, off);
    put_word(s, 16 + offset_width(long), len);
}

// Reads the offset of a body.
fn read_offset(s: &[u8], long: bool) -> usize
    requires { body_size long ≤ length s.now }
    ensures { result ≡ offset_at long s.now }
{
    if long {
        return u32_at(s, 16) as usize;
    }
    word_at(s, 16)
}

// Reads the body of a record.
fn read_body(s: &[u8], long: bool) -> Body
    requires { body_size long ≤ length s.now }
    ensures { result ≡ body_at long s.now }
{
    Body {
        uuid: Uuid {
            high: u64_at(s, 0),
            low: u64_at(s, 8),
        },
        off: read_offset(s, long),
        len: word_at(s, 16 + offset_width(long)),
    }
}

// Where the body of an owner's record starts.
fn body_start(owner: u8) -> usize
    ensures { Starts owner result }
{
    if owner == 0 {
        return 1;
    }
    2
}

// The size of a record of that kind.
pub fn size_by(kind: Kind) -> usize
    ensures { result ≡ size_by kind.owner kind.long }
{
    body_start(kind.owner) + 18 + offset_width(kind.long)
}

// The size of a record of that key, of a line at that offset.
pub fn record_size(key: Key, off: usize) -> usize
    ensures { Sized key off result }
{
    size_by(Kind {
        owner: key.owner,
        long: SHORT_MAX < off,
    })
}

// Writes the kind, and behind kinds 3 and 5 the owner.
fn put_kind(index: &mut [u8], owner: u8, long: bool)
    requires { 2 ≤ length index.old }
    ensures { index.new ≡ kind_by owner long ++ drop (length (kind_by owner long)) index.old }
{
    if owner == 0 {
        index[0] = if long { 2 } else { 1 };
        return;
    }
    index[0] = if long { 5 } else { 3 };
    index[1] = owner;
}

// Writes a record at the front.
pub fn put_record(index: &mut [u8], key: Key, off: usize, len: usize)
    requires { length (record_bytes key off len) ≤ length index.old }
    ensures { index.new
        ≡ record_bytes key off len ++ drop (length (record_bytes key off len)) index.old }
{
    let uuid = key.uuid;
    let long = SHORT_MAX < off;
    let start = body_start(key.owner);
    put_body(&mut index[start..], long, uuid, off, len);
    put_kind(index, key.owner, long);
}

// Whether the long record of that owner is whole, and of a line whose offset two bytes do not hold.
fn holds_long(index: &[u8], owner: u8) -> bool
    requires { kind_at index.now ≡ some (kind owner true) }
    ensures { TellsRecord index.now result }
{
    if index.len() < size_by(Kind { owner, long: true }) {
        return false;
    }
    let start = body_start(owner);
    SHORT_MAX < read_offset(&index[start..], true)
}

// Whether a whole long record stands at the front. It is not inlined: the walk over a store would tell the five kinds by
// one jump through a table, which costs a short record more than its own two tests.
#[inline(never)]
fn long_stands(index: &[u8]) -> bool
    requires len_min { 21 ≤ length index.now }
    requires not_short { NotShort index.now }
    ensures { TellsRecord index.now result }
{
    if index[0] == 2 {
        return holds_long(index, 0);
    }
    if index[0] != 5 {
        return false;
    }
    if index[1] == 0 {
        return false;
    }
    holds_long(index, index[1])
}

// Whether a whole record stands at the front. By `if`: a `match` of the parts `[1, ..]` and `[3, owner, ..]` tests the
// length again for each record, 519 thousand instructions against 500 thousand in a look-up of a full store. Long
// records come last: a small store has none.
pub fn stands(index: &[u8]) -> bool
    ensures { TellsRecord index.now result }
{
    if index.len() < HALL_SIZE {
        return false;
    }
    if index[0] == 1 {
        return true;
    }
    if index[0] != 3 {
        return long_stands(index);
    }
    if index.len() < OWNED_SIZE {
        return false;
    }
    index[1] != 0
}

// What a record of that size and owner says, by its body.
fn head_with(size: usize, owner: u8, body: Body) -> Head
    ensures { result
        ≡ record {
          size = size;
          key = record { owner = owner; uuid = body.uuid };
          off = body.off;
          len = body.len;
        } }
{
    let uuid = body.uuid;
    Head {
        size,
        key: Key { owner, uuid },
        off: body.off,
        len: body.len,
    }
}

// The kind of the hall's records.
fn hall_kind(long: bool) -> u8
    ensures { result ≡ pick long 2 1 }
{
    if long {
        return 2;
    }
    1
}

// Whose the whole record at the front is.
fn owner_in(index: &[u8], long: bool) -> u8
    requires { HasKind index.now long }
    ensures { kind_at index.now ≡ some (kind result long) }
{
    if index[0] == hall_kind(long) {
        return 0;
    }
    index[1]
}

// What the whole record at the front says, which is long or not. The body is read in one place, so that its numbers make
// one load each.
fn head_in(index: &[u8], long: bool) -> Head
    requires { HasKind index.now long }
    ensures { result ≡ head_at index.now }
{
    let owner = owner_in(index, long);
    let start = body_start(owner);
    let body = read_body(&index[start..], long);
    head_with(size_by(Kind { owner, long }), owner, body)
}

// What the whole record at the front says. Short records are told first, and are read with nothing to test.
pub fn whole_head(index: &[u8]) -> Head
    requires { HasRecord index.now }
    ensures { result ≡ head_at index.now }
{
    if index[0] == 1 || index[0] == 3 {
        return head_in(index, false);
    }
    head_in(index, true)
}

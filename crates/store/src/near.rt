// A look-up that also tries a UUID without its checksum (document 02, P5). Both tries go by one walk over the store.
ghost use Rattle.std.specs.Prelude.{◌≡◌, length};
ghost use Rattle.store.specs.Keys.{Enough};
ghost use Rattle.store.specs.Near.{near_by, near_up, near_says, near_line};
ghost use Rattle.store.specs.Sights.{Ready, NearSees, Tries};

use crate::calls::LookError;
use crate::chains::Table;
use crate::look::{Part, line_at, part_of};
use crate::owners::owner_of;
use crate::parties::{Key, Party};
use crate::rows::by_area;
use crate::soundness::Ledger;
use crate::table::Fill;
use text::uuid::Uuid;

// How a line is found: under the whole UUID, or only under that without its checksum.
#[derive(Clone, Copy, PartialEq, Eq)]
pub enum Nearness {
    Exact,
    Near,
}

// Tries the whole UUID, then the same without its checksum, among the lines that are written down.
fn try_both<const N: usize>(table: &mut Table<N>, fill: Fill, key: Key) -> Option<(Nearness, Part)>
    requires { Ready table.old.rows table.old.heads table.old.links fill.count }
    ensures { Tries table.old.rows table.old.heads table.old.links fill key result }
{
    let uuid = key.uuid;
    let plain = Key {
        owner: key.owner,
        uuid: uuid.without_checksum(),
    };
    if let Some(part) = part_of(table, fill, key) {
        return Some((Nearness::Exact, part));
    }
    if let Some(part) = part_of(table, fill, plain) {
        return Some((Nearness::Near, part));
    }
    None
}

// Writes the lines of the store down in a table of that size, and tries both.
#[inline(never)]
fn near_in<const N: usize>(
    index: &[u8],
    text: &[u8],
    key: Key,
) -> Result<Option<(Nearness, Part)>, LookError>
    requires { Enough N (length index.now) }
    ensures { NearSees text.now (near_by key index.now text.now) result }
{
    let mut ledger = Ledger::<N>::new();
    let stock = ledger.take_stock(index, text).ok_or(LookError::Unsound)?;
    Ok(try_both(&mut ledger.table, stock.fill, key))
}

// Tries both among the lines of the store.
fn near_by(index: &[u8], text: &[u8], key: Key) -> Result<Option<(Nearness, Part)>, LookError>
    ensures { NearSees text.now (near_by key index.now text.now) result }
{
    by_area!(index, Err(LookError::Unsound), near_in(index, text, key))
}

// Looks the line of a party's UUID up, or that of the same without its checksum.
fn look_near(
    index: &[u8],
    text: &[u8],
    party: Party,
    uuid: Uuid,
) -> Result<Option<(Nearness, Part)>, LookError>
    ensures { NearSees text.now (near_up party uuid index.now text.now) result }
{
    let owner = owner_of(party).ok_or(LookError::NoOwner)?;
    near_by(index, text, Key { owner, uuid })
}

// Whether a party holds a line under that UUID, or only under the same without its checksum.
pub fn found_near(
    index: &[u8],
    text: &[u8],
    party: Party,
    uuid: Uuid,
) -> Result<Option<Nearness>, LookError>
    ensures { result ≡ near_says (near_up party uuid index.now text.now) }
{
    let found = look_near(index, text, party, uuid)?;
    Ok(found.map(|(nearness, _)| nearness))
}

// The line that such a look-up finds, as a part of the text; an empty part where it finds none, the store is not
// sound, or an organiser names itself 0.
pub fn get_near<'a>(index: &[u8], text: &'a [u8], party: Party, uuid: Uuid) -> &'a [u8]
    ensures { result.now ≡ near_line (near_up party uuid index.now text.now) }
{
    let part = look_near(index, text, party, uuid)
        .ok()
        .flatten()
        .map(|(_, part)| part);
    line_at(text, part)
}

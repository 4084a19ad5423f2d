// A look-up: the line of a key, by number.
ghost use Rattle.std.specs.Prelude.{◌≡◌, ◌≤◌, length};
ghost use Rattle.store.specs.Keys.{Enough, Sought};
ghost use Rattle.store.specs.Rows.{key_in, row_put};
ghost use Rattle.store.specs.Sights.{Ready, Agree, Spots, Inside, line_there, Sees};
ghost use Rattle.store.specs.Store.{look_by, look_up};

use crate::calls::LookError;
use crate::chains::Table;
use crate::owners::owner_of;
use crate::parties::{Key, Party};
use crate::rows::by_area;
use crate::soundness::Ledger;
use crate::table::{Fill, len_before};
use text::uuid::Uuid;

// Where in the text a line lies.
#[derive(Clone, Copy)]
pub struct Part {
    pub start: usize,
    pub len: usize,
}

// One more than the number that has the line of a key, or 0: the key is written down behind the lines that are held, and
// its chain tells the one before.
pub fn seek_key<const N: usize>(table: &mut Table<N>, fill: Fill, key: Key) -> usize
    requires { Ready table.old.rows table.old.heads table.old.links fill.count }
    ensures ready { Ready table.new.rows table.new.heads table.new.links fill.count }
    ensures chains_kept { (table.new.heads ≡ table.old.heads) × (table.new.links ≡ table.old.links) }
    ensures rows_after { table.new.rows ≡ row_put table.old.rows fill.count key 0 0 }
    ensures sought { Sought (key_in table.new.rows) fill.count result }
    ensures upper_bound { result ≤ fill.count }
{
    let n = fill.count;
    table.rows[n].put(key, 0, 0);
    table.seek_before(n)
}

// Where the line of a key lies.
pub fn part_of<const N: usize>(table: &mut Table<N>, fill: Fill, key: Key) -> Option<Part>
    requires { Ready table.old.rows table.old.heads table.old.links fill.count }
    ensures ready { Ready table.new.rows table.new.heads table.new.links fill.count }
    ensures chains_kept { (table.new.heads ≡ table.old.heads) × (table.new.links ≡ table.old.links) }
    ensures agree { Agree table.old.rows table.new.rows fill.count }
    ensures spots { Spots table.old.rows table.old.heads table.old.links fill key result }
{
    let r = seek_key(table, fill, key);
    let len = len_before(&table.rows, r) as usize;
    if len == 0 {
        return None;
    }
    let start = table.rows[r - 1].start as usize;
    Some(Part { start, len })
}

// Looks a key up in the lines of the store, which are written down in a table of that size. `near_in` is the same with
// another last step: one function for both would take that step as a closure, whose contract would say again what
// `part_of` and `try_both` ask.
#[inline(never)]
fn look_in<const N: usize>(index: &[u8], text: &[u8], key: Key) -> Result<Option<Part>, LookError>
    requires { Enough N (length index.now) }
    ensures { Sees text.now (look_by key index.now text.now) result }
{
    let mut ledger = Ledger::<N>::new();
    let stock = ledger.take_stock(index, text).ok_or(LookError::Unsound)?;
    Ok(part_of(&mut ledger.table, stock.fill, key))
}

// Looks a key up in the lines of the store.
fn look_by(index: &[u8], text: &[u8], key: Key) -> Result<Option<Part>, LookError>
    ensures { Sees text.now (look_by key index.now text.now) result }
{
    by_area!(index, Err(LookError::Unsound), look_in(index, text, key))
}

// Looks the line of a party's UUID up.
pub fn look(index: &[u8], text: &[u8], party: Party, uuid: Uuid) -> Result<Option<Part>, LookError>
    ensures { Sees text.now (look_up party uuid index.now text.now) result }
{
    let owner = owner_of(party).ok_or(LookError::NoOwner)?;
    look_by(index, text, Key { owner, uuid })
}

// The line that lies there, as a part of the text; an empty part where none does.
pub fn line_at<'a>(text: &'a [u8], part: Option<Part>) -> &'a [u8]
    requires { Inside text.now part }
    ensures { result.now ≡ line_there text.now part }
{
    let Some(part) = part else {
        return &text[0..0];
    };
    let offset = part.start;
    let length = part.len;
    &text[offset..offset + length]
}

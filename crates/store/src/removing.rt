// The public call that takes a line out of a store: by number, as a save strikes out the line that it replaces.
ghost use Rattle.std.specs.Prelude.{◌≡◌, length};
ghost use Rattle.store.specs.Keys.{Enough};
ghost use Rattle.store.specs.Removing.{remove_by, store_remove};
ghost use Rattle.store.specs.Sights.{Ready};
ghost use Rattle.store.specs.Table.{StrikesRow};

use crate::calls::LookError;
use crate::chains::Table;
use crate::look::seek_key;
use crate::owners::owner_of;
use crate::parties::{Key, Party};
use crate::rows::by_area;
use crate::settle::settle;
use crate::soundness::Ledger;
use crate::table::{Fill, len_before, put_len_before};
use text::uuid::Uuid;

// Strikes the line of a key out of the lines that are written down, and tells whether there was one.
fn strike_row<const N: usize>(table: &mut Table<N>, fill: Fill, key: Key) -> bool
    requires { Ready table.old.rows table.old.heads table.old.links fill.count }
    ensures { StrikesRow table.old.rows table.old.heads table.old.links fill key table.new.rows result }
{
    let r = seek_key(table, fill, key);
    let had = len_before(&table.rows, r);
    put_len_before(&mut table.rows, r, 0);
    had != 0
}

// Takes the line of a key out of the store, by a table of that size.
#[inline(never)]
fn remove_in<const N: usize>(index: &mut [u8], text: &mut [u8], key: Key) -> Result<bool, LookError>
    requires { Enough N (length index.old) }
    ensures { record { answer = result; index = index.new; text = text.new }
        ≡ remove_by key index.old text.old }
{
    let mut ledger = Ledger::<N>::new();
    let stock = ledger.take_stock(index, text).ok_or(LookError::Unsound)?;
    let fill = stock.fill;
    let front = stock.front;
    let held = strike_row(&mut ledger.table, fill, key);
    if held {
        settle(
            &mut index[front..],
            text,
            &[],
            &ledger.table.rows,
            fill,
            fill.count,
        );
    }
    Ok(held)
}

// Takes the line of a key out of the store.
fn remove_by(index: &mut [u8], text: &mut [u8], key: Key) -> Result<bool, LookError>
    ensures { record { answer = result; index = index.new; text = text.new }
        ≡ remove_by key index.old text.old }
{
    by_area!(index, Err(LookError::Unsound), remove_in(index, text, key))
}

// Takes the line out that a party holds under a UUID, and tells whether it held one. The others stay in their order,
// and the shares as they are.
pub fn remove(
    index: &mut [u8],
    text: &mut [u8],
    party: Party,
    uuid: Uuid,
) -> Result<bool, LookError>
    ensures { record { answer = result; index = index.new; text = text.new }
        ≡ store_remove index.old text.old party uuid }
{
    let owner = owner_of(party).ok_or(LookError::NoOwner)?;
    remove_by(index, text, Key { owner, uuid })
}

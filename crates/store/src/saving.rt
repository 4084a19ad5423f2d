// The end of a save: a line that was built goes into the store.
ghost use Rattle.std.specs.Prelude.{◌≡◌, ◌≤◌, length};
ghost use Rattle.store.specs.Held.{line_max};
ghost use Rattle.store.specs.Keys.{Enough};
ghost use Rattle.store.specs.Inner.{store_file, said_by};
ghost use Rattle.store.specs.Saves.{unsaved_name, refused_save};

use crate::calls::{SaveError, Saved};
use crate::claims::dues_of;
use crate::filing::file_line;
use crate::parties::Key;
use crate::rows::by_area;
use crate::soundness::Ledger;
use line::mapping::Mapping;
use text::bytes::find_byte;
use text::search::find_text;

// Files a line that was built under its key, by a table of that size.
#[inline(never)]
fn file_in<const N: usize>(
    index: &mut [u8],
    text: &mut [u8],
    key: Key,
    line: &[u8],
) -> Result<(), SaveError>
    requires enough { Enough N (length index.old) }
    requires in_bounds { (1 ≤ length line.now) × (length line.now ≤ line_max) }
    ensures { record { answer = result; index = index.new; text = text.new }
        ≡ store_file index.old text.old (record { key = key; line = line.now }) }
{
    let mut ledger = Ledger::<N>::new();
    let stock = ledger.take_stock(index, text).ok_or(SaveError::Unsound)?;
    let fill = stock.fill;
    let front = stock.front;
    let dues = dues_of(&ledger.table.rows, fill, &ledger.shares, key.owner);
    file_line(
        &mut index[front..],
        text,
        &mut ledger.table,
        fill,
        dues,
        key,
        line,
    )?;
    Ok(())
}

// Files a line that was built under its key, unless the store is not sound or has no room.
pub fn file_built(index: &mut [u8], text: &mut [u8], key: Key, line: &[u8]) -> Result<(), SaveError>
    requires { (1 ≤ length line.now) × (length line.now ≤ line_max) }
    ensures { record { answer = result; index = index.new; text = text.new }
        ≡ store_file index.old text.old (record { key = key; line = line.now }) }
{
    by_area!(
        index,
        Err(SaveError::Unsound),
        file_in(index, text, key, line)
    )
}

// Whether a name has LF or `platform:`.
pub fn unsaved_name(name: &[u8]) -> bool
    ensures { result ≡ unsaved_name name.now }
{
    if find_byte(name, b'\n') < name.len() {
        return true;
    }
    find_text(name, b"platform:", 7) < name.len()
}

// A refused save has the empty map.
pub fn refused_save(error: SaveError) -> Saved
    ensures { result ≡ refused_save error }
{
    Saved {
        answer: Err(error),
        map: Mapping::new(),
    }
}

// What a save answers when its line was filed, or was not.
pub fn saved_as(filed: Result<(), SaveError>, map: Mapping) -> Saved
    ensures { result ≡ said_by map filed }
{
    match filed {
        Ok(()) => Saved {
            answer: Ok(()),
            map,
        },
        Err(e) => refused_save(e),
    }
}

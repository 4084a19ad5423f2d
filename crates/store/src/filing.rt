// Filing one line in a sound store: by number, as an insert does.
ghost use Rattle.std.specs.Prelude.{◌≡◌, true, ℕ, suc, ◌+◌, ◌-◌, ◌≤◌, ◌<◌, length, take, drop};
ghost use Rattle.store.specs.Held.{line_max};
ghost use Rattle.store.specs.Decode.{decode};
ghost use Rattle.store.specs.Inner.{known};
ghost use Rattle.store.specs.Table.{Loads, SomeDues, FilesLine};

use crate::border::{Standing, border_of};
use crate::chains::Table;
use crate::claims::Dues;
use crate::parties::Key;
use crate::settle::settle;
use crate::table::{Filing, Fill, Full};

// Files a line under a key, if there is room: the one held under it is taken out, and the new one goes last. The lines
// that are held are written down.
pub fn file_line<const N: usize>(
    index: &mut [u8],
    text: &mut [u8],
    table: &mut Table<N>,
    fill: Fill,
    dues: Dues,
    key: Key,
    line: &[u8],
) -> Result<(), Full>
    requires text_value { known (decode index.old text.old) ≡ true }
    requires in_bounds { (1 ≤ length line.now) × (length line.now ≤ line_max) }
    requires loads { Loads index.old
        table.old.rows table.old.heads table.old.links
        fill × (fill.count < length table.old.rows) }
    requires some_dues { SomeDues dues key.owner index.old text.old }
    ensures { FilesLine dues index.old text.old (record { key = key; line = line.now }) result
        index.new text.new }
{
    let len = line.len();
    let filing = Filing {
        index,
        text,
        dues,
        owner: key.owner,
        lines: line,
    };
    let standing = Standing {
        fill,
        border: border_of(&table.rows, fill),
    };
    let filed = filing.file_row(table, &mut [], standing, key.uuid, 0, len)?;
    settle(index, text, line, &table.rows, fill, filed.fill.count);
    Ok(())
}

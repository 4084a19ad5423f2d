// The rows of a table: a line's key, where it starts, and its length.
//
// Where a call asks that a number is below that of the rows, a type for such a number would be made anew at each call
// and taken apart in it: it is a loop's number, a count, or a link less one.
ghost use Rattle.std.specs.Prelude.{◌≡◌, ◌≤◌, length};
ghost use Rattle.store.specs.Keys.{Suits};
ghost use Rattle.store.specs.Rows.{start_max, row_key, row_of};

use crate::parties::Key;
use crate::soundness::INDEX_MAX;
use text::uuid::Uuid;

// The rows of the tables, each of twice as many as the one before. A link is one more than a number and has two bytes,
// so the largest has not 65536.
pub const SMALL_ROWS: usize = 4096;

pub const DOUBLE_ROWS: usize = 2 * SMALL_ROWS;

pub const FOURFOLD_ROWS: usize = 4 * SMALL_ROWS;

pub const EIGHTFOLD_ROWS: usize = 8 * SMALL_ROWS;

pub const LARGE_ROWS: usize = 65535;

// The bytes of an index for which a table has a row. A record has 21 or more, so a quarter of the rows is left for the
// lines of an insert.
const BYTES_FOR_ROW: usize = 16;

// Which table a call works with. The call's work is a function for a table of any size, which the compiler does not put
// into the call: so on a small index no call takes the stack of a large table.
#[derive(Clone, Copy)]
pub enum Area {
    Small,
    Double,
    Fourfold,
    Eightfold,
    Large,
}

// The table for an index; none where the index is too long.
pub fn area_for(index: &[u8]) -> Option<Area>
    ensures { Suits (length index.now) result }
{
    let len = index.len();
    if len <= BYTES_FOR_ROW * SMALL_ROWS {
        Some(Area::Small)
    } else if len <= BYTES_FOR_ROW * DOUBLE_ROWS {
        Some(Area::Double)
    } else if len <= BYTES_FOR_ROW * FOURFOLD_ROWS {
        Some(Area::Fourfold)
    } else if len <= BYTES_FOR_ROW * EIGHTFOLD_ROWS {
        Some(Area::Eightfold)
    } else if len <= INDEX_MAX {
        Some(Area::Large)
    } else {
        None
    }
}

// Calls a function for a table of any size with the table for an index; one value where the index is too long. A macro,
// since a function would take that function by its type, whose contract it had to say again.
macro_rules! by_area {
    ($index:expr, $too_long:expr, $work:ident($($argument:expr),*)) => {
        match $crate::rows::area_for($index) {
            None => $too_long,
            Some($crate::rows::Area::Small) => $work::<{ $crate::rows::SMALL_ROWS }>($($argument),*),
            Some($crate::rows::Area::Double) => $work::<{ $crate::rows::DOUBLE_ROWS }>($($argument),*),
            Some($crate::rows::Area::Fourfold) => $work::<{ $crate::rows::FOURFOLD_ROWS }>($($argument),*),
            Some($crate::rows::Area::Eightfold) => $work::<{ $crate::rows::EIGHTFOLD_ROWS }>($($argument),*),
            Some($crate::rows::Area::Large) => $work::<{ $crate::rows::LARGE_ROWS }>($($argument),*),
        }
    };
}

pub(crate) use by_area;

// A line's key, where the line starts, and its length, which is 0 where it is struck out. A row has 24 bytes, since to
// clear the rows is a good part of what a look-up in a large store takes: so a start has four of them, and where an
// insert's lines are longer than those tell, the insert goes on with another table.
#[derive(Clone, Copy)]
pub struct Row {
    pub uuid: Uuid,
    pub start: u32,
    pub len: u16,
    pub owner: u8,
}

// The greatest start that a row holds.
pub const START_MAX: usize = 4294967295;

impl Row {
    // What stands where no line is written down.
    pub const UNUSED: Row = Row {
        uuid: Uuid::NIL,
        start: 0,
        len: 0,
        owner: 0,
    };

    // The key of the line.
    pub fn key(self) -> Key
        ensures { result ≡ row_key self }
    {
        Key {
            owner: self.owner,
            uuid: self.uuid,
        }
    }

    // Writes a line down. Number by number: a key that is copied whole takes the unused bytes behind its owner along, and
    // a look-up waits for them at each record.
    pub fn put(&mut self, key: Key, start: usize, len: usize)
        requires { (start ≤ start_max) × (len ≤ 65535) }
        ensures { self.new ≡ row_of key start len }
    {
        self.uuid = key.uuid;
        self.start = start as u32;
        self.len = len as u16;
        self.owner = key.owner;
    }
}

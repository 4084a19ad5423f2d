// Where lines start above 65535, by number: their records are two bytes longer. Lines that are held only move down while
// one after the other is filed, so the border before them only moves forward.
ghost use Rattle.std.specs.Prelude.{◌≡◌, true, ◌+◌, ◌-◌, ◌≤◌, eqb, leb, length};
ghost use Rattle.text.specs.Bytes.{pick};
ghost use Rattle.store.specs.Border.{Near, Bordered, Moves, Measured, Replaceable, Replaced};
ghost use Rattle.store.specs.Claims.{row_lengths};
ghost use Rattle.store.specs.Held.{index_max, text_max, line_max, size_by};

use crate::parties::Key;
use crate::records::{SHORT_MAX, record_size};
use crate::rows::Row;
use crate::table::Fill;

// A place among the rows: how many stand before it, and the bytes of their lines. Each of those starts at 65535 or below.
#[derive(Clone, Copy)]
pub struct Border {
    pub rows: usize,
    pub bytes: usize,
}

impl Border {
    // The border once the line before number r is struck out, of `had` bytes; r is 0 where there is none.
    fn without(self, r: usize, had: usize) -> Border
        requires { r ≤ self.rows → had ≤ self.bytes }
        ensures { result
            ≡ pick (leb r self.rows) (record { rows = self.rows; bytes = self.bytes - had }) self }
    {
        if r <= self.rows {
            return Border {
                rows: self.rows,
                bytes: self.bytes - had,
            };
        }
        self
    }
}

// A border that was moved on, and how many lines it passed.
#[derive(Clone, Copy)]
pub struct Moved {
    pub border: Border,
    pub passed: usize,
}

// 1 for a line, 0 for one that is struck out.
fn one_if(len: usize) -> usize
    ensures { result ≡ pick (eqb len 0) 0 1 }
{
    if len == 0 {
        return 0;
    }
    1
}

// Moves the border on over the first `count` rows, as far as their lines start at 65535 or below.
fn advance(rows: &[Row], from: Border, count: usize) -> Moved
    requires within { (count ≤ length rows.now) × (row_lengths rows.now count ≤ text_max + line_max) }
    requires near { Near rows.now count from }
    ensures { Moves rows.now count from result }
{
    let mut at = from.rows;
    let mut bytes = from.bytes;
    let mut passed = 0;
    // A `while`, since it hands its place back.
    while at < count && bytes <= SHORT_MAX {
        let len = rows[at].len as usize;
        bytes += len;
        passed += one_if(len);
        at += 1;
    }
    Moved {
        border: Border { rows: at, bytes },
        passed,
    }
}

// The border of the rows of a store, whose lines have `used` bytes in all. Where those are so few, none starts above it.
pub fn border_of(rows: &[Row], fill: Fill) -> Border
    requires within { (fill.count ≤ length rows.now) × (fill.used ≤ text_max) }
    requires is { fill.used ≡ row_lengths rows.now fill.count }
    ensures { Bordered rows.now fill.count result }
{
    if fill.used <= SHORT_MAX {
        return Border {
            rows: fill.count,
            bytes: fill.used,
        };
    }
    let start = Border { rows: 0, bytes: 0 };
    advance(rows, start, fill.count).border
}

// Where the records end with one more of that key, as long as behind the border. A line of `had` bytes is struck out for
// it, or none where it is 0: before the border that one's record is two bytes shorter.
fn end_with(end: usize, had: usize, key: Key, near: bool) -> usize
    requires { end ≤ index_max }
    ensures { result ≡ pick (eqb had 0) (end + size_by key.owner true) (pick near (end + 2) end) }
{
    if had == 0 {
        return end + record_size(key, SHORT_MAX + 1);
    }
    if near {
        return end + 2;
    }
    end
}

// What is filled while lines are filed, and where the border stands.
#[derive(Clone, Copy)]
pub struct Standing {
    pub fill: Fill,
    pub border: Border,
}

impl Standing {
    // What is filled with the row of the next number, which is of a line of that key. The line before number r, of `had`
    // bytes, is struck out for it.
    pub fn with_row(self, rows: &[Row], key: Key, r: usize, had: usize, len: usize) -> Standing
        requires { Replaceable rows.now self key r had len }
        ensures { Replaced rows.now self result }
    {
        let fill = self.fill;
        let border = self.border;
        let count = fill.count + 1;
        let moved = advance(rows, border.without(r, had), count);
        let far = end_with(fill.end, had, key, r <= border.rows);
        let filled = Fill {
            count,
            end: far - 2 * moved.passed,
            used: fill.used - had + len,
        };
        Standing {
            fill: filled,
            border: moved.border,
        }
    }
}

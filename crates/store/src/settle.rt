// The lines that a save or an insert leaves, written out: those that are held still, one behind the other, and 0
// behind them. The index from the first removed record on is lent to `close_up`.
ghost use Rattle.std.specs.Prelude.{◌≡◌, true, ◌+◌, ◌≤◌, length, take, drop};
ghost use Rattle.text.specs.Bytes.{pick, written};
ghost use Rattle.store.specs.Table.{Keepable, Keeps, Closes, Closed, Extends, Settles, Settled};

use crate::bytes::{move_down, zero_between};
use crate::records::{put_record, record_size};
use crate::rows::Row;
use crate::table::Fill;
use text::bytes::write_bytes;

// The numbers before the first one that is struck out: how many, and where their records and their lines end.
#[derive(Clone, Copy)]
pub struct Kept {
    pub rows: usize,
    pub at: usize,
    pub off: usize,
}

// Writes a line at `off`: an old one stands in the text, at `off` or behind it, a new one in `lines`.
fn put_text(text: &mut [u8], lines: &[u8], off: usize, start: usize, len: usize, old: bool)
    requires len_in_bounds { off + len ≤ length text.old }
    requires len_in_bounds_2 { start + len ≤ length (pick old text.old lines.now) }
    requires off_le_start { old ≡ true → off ≤ start }
    ensures { text.new
        ≡ written text.old off
        (take len (drop start (pick old text.old lines.now))) }
{
    if old {
        move_down(&mut text[off..start + len], start - off);
        return;
    }
    write_bytes(text, off, &lines[start..start + len]);
}

// Counts the first of `old` numbers, up to one that is struck out.
fn kept_rows(rows: &[Row], old: usize) -> Kept
    requires { Keepable rows.now old }
    ensures { Keeps rows.now old result }
{
    let mut at = 0;
    let mut off = 0;
    for (k, row) in rows[..old].iter().enumerate() {
        if row.len == 0 {
            return Kept { rows: k, at, off };
        }
        at += record_size(row.key(), off);
        off += row.len as usize;
    }
    Kept { rows: old, at, off }
}

// Moves the records behind those that are kept down, with their lines, and zeroes the tail: the part is the index from
// the first removed record on. The first of `count` numbers stand in the text, as many as there were, the others in
// `lines`.
fn close_up(
    part: &mut [u8],
    text: &mut [u8],
    lines: &[u8],
    rows: &[Row],
    kept: Kept,
    was: Fill,
    count: usize,
)
    requires { Closes part.old text.old lines.now
        rows.now kept was count }
    ensures { Closed part.old text.old lines.now
        rows.now kept was count part.new text.new }
{
    let mut at = 0;
    let mut off = kept.off;
    // By number: it also tells whether the line stands in the text, which a place in a part of the rows would not.
    for k in kept.rows..count {
        let row = rows[k];
        if row.len == 0 {
            continue;
        }
        let key = row.key();
        let start = row.start as usize;
        let len = row.len as usize;
        put_record(&mut part[at..], key, off, len);
        put_text(text, lines, off, start, len, k < was.count);
        at += record_size(key, off);
        off += len;
    }
    zero_between(part, at, was.end - kept.at);
    zero_between(text, off, was.used);
}

// Writes the lines of the first `count` numbers out. What stands before the first one that is struck out stays as it
// is. `was` says how many lines stand in the text, and where they and their records end.
pub fn settle(
    index: &mut [u8],
    text: &mut [u8],
    lines: &[u8],
    rows: &[Row],
    was: Fill,
    count: usize,
)
    requires extends { Extends index.old text.old was }
    requires settles { Settles index.old text.old lines.now
        rows.now was count }
    ensures { Settled index.old text.old lines.now
        rows.now was count index.new text.new }
{
    let kept = kept_rows(rows, was.count);
    let at = kept.at;
    close_up(&mut index[at..], text, lines, rows, kept, was, count);
}

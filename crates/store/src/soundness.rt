// Whether two buffers are a sound store: one walk over the records checks them and writes the lines down.
ghost use Rattle.std.specs.Prelude.{◌≡◌, ◌&&◌, ◌≤◌, length, drop};
ghost use Rattle.store.specs.Decode.{head_fits, zeroes, content};
ghost use Rattle.store.specs.Held.{index_max, text_max};
ghost use Rattle.store.specs.Inner.{known};
ghost use Rattle.store.specs.Keys.{Chained, Enough};
ghost use Rattle.store.specs.Rows.{key_in};
ghost use Rattle.store.specs.Table.{OnceSurveyed, Fresh, OnceStocked};

use crate::bytes::all_zero;
use crate::chains::{Keyed, Table, Verdict, steps, told};
use crate::order::each_once;
use crate::records::{Head, stands, whole_head};
use crate::rows::by_area;
use crate::shares::{OWNERS, read_shares};
use crate::table::Fill;

// The most bytes of a line, of an index and of a text.
pub const LINE_MAX: usize = 16384;

pub const INDEX_MAX: usize = 1048576;

pub const TEXT_MAX: usize = 16777216;

// What a walk shows of a store whose records and lines are those of some list, in which a key may stand twice: whether
// one does, as far as chains told; and how much is in use.
#[derive(Clone, Copy)]
pub struct Surveyed {
    pub verdict: Verdict,
    pub fill: Fill,
}

// Of a sound store: where in the index the records of the lines start, and how much is in use behind that.
#[derive(Clone, Copy)]
pub struct Stock {
    pub front: usize,
    pub fill: Fill,
}

// Whether a record is of a line at that offset, which fits in that many bytes of text.
fn head_fits(off: usize, head: Head, room: usize) -> bool
    ensures { result ≡ head_fits off head room }
{
    if head.off != off {
        return false;
    }
    if head.len < 1 {
        return false;
    }
    if LINE_MAX < head.len {
        return false;
    }
    head.len <= room
}

// Whether all is 0 in the index from `at` on, and in the text from `off` on.
fn zero_behind(index: &[u8], text: &[u8], at: usize, off: usize) -> bool
    requires { (at ≤ length index.now) × (off ≤ length text.now) }
    ensures { result ≡ zeroes (drop at index.now) && zeroes (drop off text.now) }
{
    all_zero(&index[at..]) && all_zero(&text[off..])
}

// Walks over the records, checks them, and writes each line down in its chain; none where they are not those of a
// list.
pub fn survey<const N: usize>(index: &[u8], text: &[u8], table: &mut Table<N>) -> Option<Surveyed>
    requires enough { Enough (length table.old.rows) (length index.now) }
    requires text_len_bound { length text.now ≤ text_max }
    requires chained { Chained (key_in table.old.rows) table.old.heads table.old.links 0 }
    ensures once { OnceSurveyed index.now text.now
        table.new.rows table.new.heads table.new.links result }
    ensures rows_kept { length table.new.rows ≡ length table.old.rows }
{
    let mut at = 0;
    let mut used = 0;
    let mut n = 0;
    let mut verdict = Verdict::Apart;
    // A `while`, since no index is counted: each record says where the next one starts.
    while stands(&index[at..]) {
        let head = whole_head(&index[at..]);
        if !head_fits(used, head, text.len() - used) {
            return None;
        }
        let r = table.add_row(n, head.key, head.off, head.len, steps(verdict));
        verdict = told(verdict, n, r);
        at += head.size;
        used += head.len;
        n += 1;
    }
    if !zero_behind(index, text, at, used) {
        return None;
    }
    Some(Surveyed {
        verdict,
        fill: Fill {
            count: n,
            end: at,
            used,
        },
    })
}

// What is written down of a store: each party's share, and the lines.
#[derive(Drop)]
pub struct Ledger<const N: usize> {
    pub shares: [u32; OWNERS],
    pub table: Table<N>,
}

impl<const N: usize> Ledger<N> {
    // Nothing is written down.
    pub fn new() -> Ledger<N>
        requires { N ≤ 65535 }
        ensures { Fresh result }
    {
        Ledger {
            shares: [0; OWNERS],
            table: Table::new(),
        }
    }

    // Takes stock of a sound store, which is written down; none where the store is not sound.
    pub fn take_stock(&mut self, index: &[u8], text: &[u8]) -> Option<Stock>
        requires fresh { Fresh self.old }
        requires enough { Enough (length self.old.table.rows) (length index.now) }
        ensures { OnceStocked index.now text.now self.new result }
    {
        if TEXT_MAX < text.len() {
            return None;
        }
        let front = read_shares(index, &mut self.shares);
        let seen = survey(&index[front..], text, &mut self.table)?;
        let fill = seen.fill;
        let keys = Keyed {
            rows: &self.table.rows,
            links: &self.table.links,
            count: fill.count,
        };
        if !each_once::<N>(keys, seen.verdict) {
            return None;
        }
        Some(Stock { front, fill })
    }
}

// Whether the store is sound, by a table of that size.
#[inline(never)]
pub fn sound_in<const N: usize>(index: &[u8], text: &[u8]) -> bool
    requires { Enough N (length index.now) }
    ensures { result ≡ known (content index.now text.now) }
{
    let mut ledger = Ledger::<N>::new();
    ledger.take_stock(index, text).is_some()
}

// Whether the store is sound.
pub fn sound(index: &[u8], text: &[u8]) -> bool
    ensures { result ≡ known (content index.now text.now) }
{
    by_area!(index, false, sound_in(index, text))
}

// Lines by number: a row for each, and chains by the keys. A line that is struck out keeps its row, with length 0.
ghost use Rattle.std.specs.Prelude.{◌≡◌, List, ℕ, suc, ◌+◌, ◌-◌, ◌≤◌, ◌<◌, length, take, drop};
ghost use Rattle.store.specs.Keys.{Chained, Sought};
ghost use Rattle.store.specs.Rows.{key_in, row_put, len_before, put_before, start_max};
ghost use Rattle.store.specs.Tree.{Searched};
ghost use Rattle.store.specs.Table.{Weighable, room_by, Fileable, FilesRow, SearchedOn};

use crate::border::Standing;
use crate::chains::{CHAIN_MAX, Table};
use crate::claims::{Dues, claimed};
use crate::parties::Key;
use crate::rows::Row;
use crate::tree::{Node, put};
use text::uuid::Uuid;

// Why a line has no room: the index has none for its record, or the text none for the line.
#[derive(Clone, Copy, PartialEq, Eq)]
pub enum Full {
    Index,
    Text,
}

// How many numbers are taken, and how many bytes of the index and of the text the lines that are held take. That
// `count` is below the number of rows is asked where a number is to be taken, and is no fact of the type: all may be
// taken. It stands apart from the rows, and they are no vector: a line's row is written before it is known to have room, and is
// counted only where it has.
#[derive(Clone, Copy)]
pub struct Fill {
    pub count: usize,
    pub end: usize,
    pub used: usize,
}

impl<const N: usize> Table<N> {
    // Writes a line down under number n, and answers as `seek` does: one more than the last number before it with the same
    // key, 0 where none has it, or n + 1 where the chain has more than `most` steps.
    #[inline(always)]
    pub fn add_row(&mut self, n: usize, key: Key, start: usize, len: usize, most: usize) -> usize
        requires n_lt_rows { n < length self.old.rows }
        requires fits { (start ≤ start_max) × (len ≤ 65535) }
        requires chained { Chained (key_in self.old.rows) self.old.heads self.old.links n }
        ensures rows_after { self.new.rows ≡ row_put self.old.rows n key start len }
        ensures sought { Sought (key_in self.new.rows) n result }
        ensures chained_2 { Chained (key_in self.new.rows) self.new.heads self.new.links (n + 1) }
    {
        self.rows[n].put(key, start, len);
        self.link(n, most)
    }

    // The same, by the tree where there is one: one more than the last number before it with the same key, 0 where none has
    // it. Without one there are no nodes: an `Option` of a lent slice would have to be lent anew for each line. A chain that
    // is too long is walked to its end then, and the table says so.
    fn add_by(&mut self, nodes: &mut [Node], n: usize, key: Key, start: usize, len: usize) -> usize
        requires n_lt_rows { n < length self.old.rows }
        requires fits { (start ≤ start_max) × (len ≤ 65535) }
        requires chained { Chained (key_in self.old.rows) self.old.heads self.old.links n }
        requires searched { Searched (key_in self.old.rows) nodes.old n (length self.old.rows) }
        ensures rows_after { self.new.rows ≡ row_put self.old.rows n key start len }
        ensures sought { Sought (key_in self.new.rows) n result × (result ≤ n) }
        ensures chained_2 { Chained (key_in self.new.rows) self.new.heads self.new.links (n + 1) }
        ensures searched_2 { Searched (key_in self.new.rows) nodes.new (n + 1) (length self.new.rows) }
    {
        if !nodes.is_empty() {
            self.add_row(n, key, start, len, 0);
            return put(nodes, &self.rows, n);
        }
        let r = self.add_row(n, key, start, len, CHAIN_MAX);
        if n < r {
            self.long = true;
            return self.seek_behind(n);
        }
        r
    }
}

// The length of the line of the number before r, and 0 where r is 0.
pub fn len_before(rows: &[Row], r: usize) -> u16
    requires { r ≤ length rows.now }
    ensures { result ≡ len_before rows.now r }
{
    if r == 0 {
        return 0;
    }
    rows[r - 1].len
}

// Writes the length of the line of the number before r, 0 striking it out; r is 0 where there is none.
pub fn put_len_before(rows: &mut [Row], r: usize, len: u16)
    requires { r ≤ length rows.old }
    ensures { rows.new ≡ put_before rows.old r len }
{
    if r == 0 {
        return;
    }
    rows[r - 1].len = len;
}

// One party's filing: the buffers as they are before it, what is claimed of the text, the owner byte, and the lines that
// are inserted. It is the same from the first line to the last.
#[derive(Clone, Copy)]
pub struct Filing<'a> {
    pub index: &'a [u8],
    pub text: &'a [u8],
    pub dues: Dues,
    pub owner: u8,
    pub lines: &'a [u8],
}

impl Filing<'_> {
    // Whether there is room for what is filled.
    fn room(&self, fill: Fill) -> Result<(), Full>
        requires { Weighable self.now.dues fill }
        ensures { result
            ≡ room_by self.now.dues (length self.now.index.now) (length self.now.text.now) fill }
    {
        if self.index.len() < fill.end {
            return Err(Full::Index);
        }
        if self.text.len() < claimed(self.dues, fill.used) {
            return Err(Full::Text);
        }
        Ok(())
    }

    // Files a line of the inserted text under a UUID, if there is room, and answers what is filled then: the one held under
    // it is struck out. Room is told with that one struck out, so its length is put back where there is none.
    pub fn file_row<const N: usize>(
        &self,
        table: &mut Table<N>,
        nodes: &mut [Node],
        standing: Standing,
        uuid: Uuid,
        start: usize,
        len: usize,
    ) -> Result<Standing, Full>
        requires count_lt_rows { (standing.fill.count < length table.old.rows) × (start ≤ start_max) }
        requires fileable { Fileable self.now.dues self.now.index.now self.now.text.now
            table.old.rows table.old.heads table.old.links
            standing (record { owner = self.now.owner; uuid = uuid }) start len }
        requires searched { Searched (key_in table.old.rows) nodes.old standing.fill.count (length table.old.rows) }
        ensures files { FilesRow self.now.dues self.now.index.now self.now.text.now
            table.old.rows table.old.heads table.old.links
            standing (record { owner = self.now.owner; uuid = uuid }) start len
            table.new.rows table.new.heads table.new.links result }
        ensures searched_2 { SearchedOn table.new.rows nodes.new result }
        ensures rows_kept { length table.new.rows ≡ length table.old.rows }
    {
        let n = standing.fill.count;
        let owner = self.owner;
        let key = Key { owner, uuid };
        let r = table.add_by(nodes, n, key, start, len);
        let had = len_before(&table.rows, r);
        put_len_before(&mut table.rows, r, 0);
        let filed = standing.with_row(&table.rows, key, r, had as usize, len);
        if let Err(full) = self.room(filed.fill) {
            put_len_before(&mut table.rows, r, had);
            return Err(full);
        }
        Ok(filed)
    }
}

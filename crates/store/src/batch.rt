// A part of an insert: lines are filed by number, as long as there are numbers, and what is held is then written out.
ghost use Rattle.std.specs.Prelude.{◌≡◌, true, false, ℕ, suc, ◌+◌, ◌-◌, ◌≤◌, ◌<◌, length, take, drop};
ghost use Rattle.store.specs.Decode.{decode};
ghost use Rattle.store.specs.Inner.{known};
ghost use Rattle.store.specs.Keys.{Enough};
ghost use Rattle.store.specs.Rows.{key_in, start_max};
ghost use Rattle.store.specs.Tree.{Searched};
ghost use Rattle.store.specs.Table.{SomeRows, ReachesRow, TakesLines, Went, Batches, SearchedOn};

use crate::border::{Standing, border_of};
use crate::calls::StoreError;
use crate::chains::Table;
use crate::claims::dues_of;
use crate::lines::{line_length, wanted};
use crate::rows::START_MAX;
use crate::settle::settle;
use crate::shares::OWNERS;
use crate::soundness::{LINE_MAX, survey};
use crate::table::Filing;
use crate::tree::{Node, grow};
use text::search::find_far;

// How far lines were walked: what stops the insert, if anything does, the place, the lines walked, and what is filled.
#[derive(Clone, Copy)]
pub struct Walked {
    pub answer: Result<(), StoreError>,
    pub at: usize,
    pub count: usize,
    pub standing: Standing,
}

impl Filing<'_> {
    // One line of an owner's insert: what is filled after it, or why it stops the insert.
    fn reach_row<const N: usize>(
        &self,
        table: &mut Table<N>,
        nodes: &mut [Node],
        standing: Standing,
        at: usize,
        len: usize,
    ) -> Result<Standing, StoreError>
        requires count_lt_rows { (standing.fill.count < length table.old.rows) × (at + len ≤ length self.now.lines.now) }
        requires near { at ≤ start_max }
        requires some_rows { SomeRows self.now.dues self.now.owner self.now.index.now self.now.text.now
            self.now.lines.now
            table.old.rows table.old.heads table.old.links
            standing }
        requires searched { Searched (key_in table.old.rows) nodes.old standing.fill.count (length table.old.rows) }
        ensures reaches { ReachesRow self.now.dues self.now.index.now self.now.text.now
            self.now.lines.now
            table.old.rows table.old.heads table.old.links standing self.now.owner
            (take len (drop at self.now.lines.now))
            table.new.rows table.new.heads table.new.links result }
        ensures searched_2 { SearchedOn table.new.rows nodes.new result }
        ensures rows_kept { length table.new.rows ≡ length table.old.rows }
    {
        let Some(spelled) = wanted(&self.lines[at..at + len]) else {
            return Ok(standing);
        };
        if LINE_MAX < len {
            return Err(StoreError::LineTooLong);
        }
        let uuid = spelled.id;
        let filed = self.file_row(table, nodes, standing, uuid, at, len)?;
        Ok(filed)
    }

    // Walks the lines from a place on, while there are numbers for them and rows hold where they start, up to the first whose
    // chain is too long where there is no tree.
    fn take_lines<const N: usize>(
        &self,
        table: &mut Table<N>,
        nodes: &mut [Node],
        first: Standing,
        from: usize,
    ) -> Walked
        requires from_in_bounds { (from ≤ length self.now.lines.now + 1) × (from ≤ start_max) }
        requires some_rows { SomeRows self.now.dues self.now.owner self.now.index.now self.now.text.now
            self.now.lines.now
            table.old.rows table.old.heads table.old.links
            first }
        requires searched { Searched (key_in table.old.rows) nodes.old first.fill.count (length table.old.rows) }
        ensures takes_lines { TakesLines self.now.dues self.now.index.now self.now.text.now
            self.now.lines.now
            table.old.rows table.old.heads table.old.links self.now.owner from first
            table.new.rows table.new.heads table.new.links result }
        ensures went { Went self.now.lines.now from first.fill.count (length table.old.rows) result }
    {
        let mut at = from;
        let mut count = 0;
        let mut standing = first;
        // A `while`, since it may stop within the text and hands its place back, which no `split` tells.
        while at < self.lines.len() && standing.fill.count < table.rows.len() && at <= START_MAX {
            let end = find_far(&self.lines[at..], b'\n');
            let len = line_length(&self.lines[at..], end);
            let start = at;
            match self.reach_row(table, nodes, standing, start, len) {
                Ok(filed) => standing = filed,
                Err(e) => {
                    return Walked {
                        answer: Err(e),
                        at,
                        count,
                        standing,
                    };
                }
            }
            count += 1;
            at += end + 1;
            if table.long {
                break;
            }
        }
        Walked {
            answer: Ok(()),
            at,
            count,
            standing,
        }
    }

    // The same to the end; where a chain was too long, from the next line on by a tree. It is cleared only where it is
    // needed.
    fn take_all<const N: usize>(&self, table: &mut Table<N>, first: Standing, from: usize) -> Walked
        requires from_in_bounds { (from ≤ length self.now.lines.now + 1) × (from ≤ start_max) }
        requires some_rows { SomeRows self.now.dues self.now.owner self.now.index.now self.now.text.now
            self.now.lines.now
            table.old.rows table.old.heads table.old.links
            first }
        ensures takes_lines { TakesLines self.now.dues self.now.index.now self.now.text.now
            self.now.lines.now
            table.old.rows table.old.heads table.old.links self.now.owner from first
            table.new.rows table.new.heads table.new.links result }
        ensures went { Went self.now.lines.now from first.fill.count (length table.old.rows) result }
    {
        let some = self.take_lines(table, &mut [], first, from);
        if some.answer.is_err() || !table.long || START_MAX < some.at {
            return some;
        }
        // Else the walk would stop behind the next line again.
        table.long = false;
        let mut nodes = [Node::UNUSED; N];
        grow(&mut nodes, &table.rows, some.standing.fill.count);
        let rest = self.take_lines(table, &mut nodes, some.standing, some.at);
        Walked {
            answer: rest.answer,
            at: rest.at,
            count: some.count + rest.count,
            standing: rest.standing,
        }
    }
}

// Files the lines from a place on, into a sound store, as far as there are numbers for them and rows hold where they start,
// which is told from that place. The index is the part behind the shares.
#[inline(never)]
pub fn insert_batch<const N: usize>(
    index: &mut [u8],
    text: &mut [u8],
    shares: &[u32; OWNERS],
    owner: u8,
    lines: &[u8],
    from: usize,
) -> Walked
    requires enough { Enough N (length index.old) }
    requires text_value { known (decode index.old text.old) ≡ true }
    requires from_in_bounds { from ≤ length lines.now }
    ensures batches { Batches shares.now index.old text.old owner lines.now from result
        index.new text.new }
    ensures went { Went lines.now from 0 N result }
{
    let mut table = Table::<N>::new();
    let seen = survey(index, text, &mut table).unwrap();
    let fill = seen.fill;
    let dues = dues_of(&table.rows, fill, shares, owner);
    let rest = &lines[from..];
    let filing = Filing {
        index,
        text,
        dues,
        owner,
        lines: rest,
    };
    let standing = Standing {
        fill,
        border: border_of(&table.rows, fill),
    };
    let part = filing.take_all(&mut table, standing, 0);
    let count = part.standing.fill.count;
    settle(index, text, rest, &table.rows, fill, count);
    Walked {
        answer: part.answer,
        at: from + part.at,
        count: part.count,
        standing: part.standing,
    }
}

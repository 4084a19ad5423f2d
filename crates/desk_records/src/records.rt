// A store in memory: its records one after the other, and the lines that they are about.
ghost use Rattle.std.specs.Prelude.{length};
ghost use Rattle.std.specs.Iterator.{at_most};

use crate::parties::owner_of;
use desk::fields::{before, first, nth_part};
use desk::files::{Size, StoreFile};
use store::calls::get;
use store::near::get_near;
use store::parties::Party;
use store::walk::{Record as Told, line_size, record_at};
use text::uuid::Uuid;

// The two halves of a store, which stand elsewhere: desk's `Halves`, with methods that need the crate store, on which
// desk does not rest.
#[derive(Clone, Copy)]
pub struct View<'a> {
    pub index: &'a [u8],
    pub text: &'a [u8],
}

// Whose line, and under which UUID.
#[derive(Clone, Copy)]
pub struct LineKey {
    pub party: Party,
    pub id: Uuid,
}

impl<'a> From<&'a StoreFile> for View<'a> {
    fn from(file: &'a StoreFile) -> View<'a> {
        View {
            index: &file.index,
            text: &file.text,
        }
    }
}

impl<'a> View<'a> {
    // The records of a sound store.
    pub fn records(self) -> Records<'a> {
        Records { left: self }
    }

    // The record of those bytes.
    fn record(self, bytes: &'a [u8], told: Told) -> Record<'a> {
        match told {
            Told::Line(line) => Record {
                bytes,
                owner: line.key.owner,
                entry: Entry::Line {
                    id: line.key.uuid,
                    line: part(self.text, line.off, line.len),
                },
            },
            Told::Share(share) => Record {
                bytes,
                owner: share.owner,
                entry: Entry::Share(share.share),
            },
        }
    }

    // Whether a store is of the smaller size.
    pub fn can_grow(self) -> bool {
        self.index.len() < Size::Large.index()
    }

    // How many lines of a party have room in so many bytes of the index, wherever they start: each record is taken to be as
    // long as that of a line at the text's end.
    pub fn lines_in(self, bytes: usize, party: Party) -> usize {
        bytes / line_size(owner_of(party), self.text.len())
    }

    // The line that a party holds under a UUID itself; empty where it holds none.
    pub fn line(self, key: LineKey) -> &'a [u8] {
        get(self.index, self.text, key.party, key.id)
    }

    // The same, or else the line under that UUID without its checksum.
    pub fn near_line(self, key: LineKey) -> &'a [u8] {
        get_near(self.index, self.text, key.party, key.id)
    }
}

// What a record is about: a line and its UUID, or a party's share of the text.
#[derive(Clone, Copy)]
pub enum Entry<'a> {
    Line { id: Uuid, line: &'a [u8] },
    Share(usize),
}

// A record: its bytes, its owner, 0 for the hall, and what it is about.
#[derive(Clone, Copy)]
pub struct Record<'a> {
    pub bytes: &'a [u8],
    pub owner: u8,
    pub entry: Entry<'a>,
}

impl<'a> Record<'a> {
    // Its line; None where it is a share.
    pub fn line(&self) -> Option<&'a [u8]> {
        match self.entry {
            Entry::Line { line, .. } => Some(line),
            Entry::Share(_) => None,
        }
    }
}

// The records of a store from a place on; the whole text stands beside them.
#[derive(Drop)]
pub struct Records<'a> {
    left: View<'a>,
}

impl<'a> Iterator for Records<'a> {
    type Item = Record<'a>;

    ghost remaining = { λ s. at_most (length s.left.index.now) };

    fn next(&mut self) -> Option<Record<'a>> {
        let View { index, text } = self.left;
        let stands = record_at(index, 0)?;
        let (bytes, index) = index.split_at_checked(stands.size)?;
        self.left = View { index, text };
        Some(self.left.record(bytes, stands.told))
    }
}

// So many bytes of a text from a place on, as far as there are any.
fn part(text: &[u8], at: usize, len: usize) -> &[u8] {
    text.get(at..).map_or(&[], |behind| first(behind, len))
}

pub fn name_of(line: &[u8]) -> &[u8] {
    nth_part(line, 1, b',')
}

// The UUID that a line is held under.
pub fn uuid_of(line: &[u8]) -> Uuid {
    Uuid::parse_str(before(line, b',')).map_or(Uuid::NIL, |spelled| spelled.id)
}

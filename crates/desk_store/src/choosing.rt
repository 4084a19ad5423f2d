// Which lines of a list an insert with `only=TEXT` is about.
use desk::console::Console;
use desk::fields::{after, bare, before};
use desk::matching::has_part;
use desk::say::Failure;
use desk_pads::plugged::{Guids, plugged_guids};
use desk_records::records::{name_of, uuid_of};
use std::alloc::{AllocError, Global};
use text::uuid::Uuid;

// What `only=` asks for: a text, or with `pads` the pads that are plugged in.
#[derive(Clone, Copy)]
pub enum Choice<'a> {
    Text(&'a [u8]),
    Pads(Guids),
}

// Whether a line is under the UUID that a text is.
fn is_under_text(line: &[u8], wanted: &[u8]) -> bool {
    Uuid::parse_str(wanted).is_some_and(|spelled| uuid_of(line) == spelled.id)
}

impl<'a> Choice<'a> {
    // `pads`, `pads:FILE`, or a text
    pub fn named(console: &Console, wanted: &'a [u8]) -> Result<Choice<'a>, Failure> {
        if before(wanted, b':') == b"pads".as_slice() {
            let guids = plugged_guids(console, after(wanted, b':'))?;
            return Ok(Choice::Pads(guids));
        }
        Ok(Choice::Text(wanted))
    }

    // Whether a line is one of a plugged pad, or has the text in its name or in its UUID.
    fn takes(&self, line: &[u8]) -> bool {
        match self {
            Choice::Pads(guids) => guids.has(uuid_of(line)),
            Choice::Text(wanted) => {
                has_part(name_of(line), wanted)
                    || has_part(before(line, b','), wanted)
                    || is_under_text(line, wanted)
            }
        }
    }

    // The lines of a list that are chosen, with their ends.
    pub fn lines_of(&self, alloc: Global, list: &[u8]) -> Result<Vec<u8>, AllocError> {
        let mut kept = Vec::new(alloc);
        for line in list.split_inclusive(|b| *b == b'\n') {
            if self.takes(bare(line)) {
                kept.extend_from_slice(line)?;
            }
        }
        Ok(kept)
    }
}

// Whether the arguments besides the party are only the one that a command knows, or none.
pub fn is_one(others: usize, is_given: bool) -> bool {
    others == 0 || others == 1 && is_given
}

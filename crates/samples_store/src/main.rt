// Executes histories of calls on a store, and compares each answer with what is expected.
// A file has groups, `== TITLE`, each of cases, one a line; `#` starts a comment; `new INDEX TEXT` makes a fresh store
// of buffers of those lengths; `by 7` before a call says that it is organiser 7's. A mismatch prints its line.
#![tactic(auto)]

mod cases;
mod near_cases;
mod parties;
mod save_cases;
mod share_cases;
mod spelled;

use cases::{Store, bytes_case, is_looked, key_of, poke_case};
use parties::party_and_call;
use parts::cuts::{before, is_blank, rest, word};
use parts::totals::Totals;
use spelled::big;
use std::alloc::{AllocError, Global};
use std::io::Read;
use std::rt::Files;
use std::{fs, io};
use store::parties::Party;

// The most bytes of a list.
const ROOM: usize = 65536;

const FILES: [&str; 13] = [
    "store.txt",
    "damage.txt",
    "history.txt",
    "parties.txt",
    "owned-damage.txt",
    "party-history.txt",
    "shares.txt",
    "share-damage.txt",
    "share-history.txt",
    "far.txt",
    "far-damage.txt",
    "far-history.txt",
    "removals.txt",
];

// One call of a party on the store, a comparison of a whole buffer, or a change of its bytes.
fn run_case(alloc: Global, store: Store, call: &[u8]) -> Result<bool, AllocError> {
    let args = rest(call);
    match word(call) {
        b"find" => is_looked(alloc, store.find(key_of(args)), args),
        b"near" => is_looked(alloc, store.near(key_of(args)), args),
        b"insert" => store.insert_case(alloc, args),
        b"forms" => store.forms_case(alloc, args),
        b"save" => store.save_case(alloc, args),
        b"remove" => Ok(store.remove_case(args)),
        b"share" => Ok(store.share_case(args)),
        b"told" => Ok(store.told_case(args)),
        b"clear" => Ok(store.clear_case(args)),
        b"index" => bytes_case(alloc, store.index, args),
        b"text" => bytes_case(alloc, store.text, args),
        b"poke-index" => Ok(poke_case(store.index, args)),
        b"poke-text" => Ok(poke_case(store.text, args)),
        _ => Ok(false),
    }
}

// The store's two buffers, of the lengths that the cases name, on the heap. replay has a struct of two such buffers with
// cases of its own: two buffers are all that a common one would have.
#[derive(Drop)]
struct Buffers {
    index: Vec<u8>,
    text: Vec<u8>,
}

impl Buffers {
    // All zero.
    fn fresh(alloc: Global, index: usize, text: usize) -> Result<Buffers, AllocError> {
        Ok(Buffers {
            index: vec![in alloc; 0u8; index]?,
            text: vec![in alloc; 0u8; text]?,
        })
    }

    // The store, for a call of a party.
    fn store(&mut self, party: Party) -> Store<'_> {
        let Buffers { index, text } = self;
        Store { index, text, party }
    }
}

// How many cases were run and went wrong, of this group and of all.
#[derive(Drop)]
struct Run {
    group: Totals,
    all: Totals,
}

impl Run {
    // Prints how a group went.
    fn finish(&mut self, rt: &impl Print) -> io::Result<()> {
        if 0 < self.group.cases {
            println!(rt; "{}", self.group)?;
        }
        self.group = Totals::NONE;
        Ok(())
    }

    fn title(&mut self, rt: &impl Print, title: &[u8]) -> io::Result<()> {
        self.finish(rt)?;
        rt.write_all(title)?;
        rt.write_all(b": ")
    }

    // Counts one case more.
    fn count(&mut self, rt: &impl Print, right: bool, line: &[u8]) -> io::Result<()> {
        if !right {
            rt.write_all(b"\n  wrong: ")?;
            rt.write_all(line)?;
            rt.write_all(b"\n  ")?;
        }
        self.group = self.group.counted(right);
        self.all = self.all.counted(right);
        Ok(())
    }

    // A `poke` is no case.
    fn line<R: Print + AllocGlobal>(
        &mut self,
        rt: &R,
        buffers: &mut Buffers,
        line: &[u8],
    ) -> io::Result<()> {
        match word(line) {
            [b'=', ..] => self.title(rt, rest(line)),
            b"new" => {
                let lengths = rest(line);
                *buffers = Buffers::fresh(rt.alloc(), big(word(lengths)), big(rest(lengths)))?;
                Ok(())
            }
            kind => {
                let (party, call) = party_and_call(line);
                let right = run_case(rt.alloc(), buffers.store(party), call)?;
                if kind.starts_with(b"p") {
                    return Ok(());
                }
                self.count(rt, right, line)
            }
        }
    }

    // Runs a whole list in fresh buffers.
    fn list<R: Print + AllocGlobal>(&mut self, rt: &R, list: &[u8]) -> io::Result<()> {
        let mut buffers = Buffers::fresh(rt.alloc(), 0, 0)?;
        for ended in list.split_inclusive(|b| *b == b'\n') {
            let line = before(ended, b'\n');
            if !is_blank(line) {
                self.line(rt, &mut buffers, line)?;
            }
        }
        self.finish(rt)
    }

    // Runs the list in a file of at most 65536 bytes. The test programs print a list, and a file that is not there, each
    // in its own words, so each has this function.
    fn file<R: Files + Print + AllocGlobal>(&mut self, rt: &R, path: &str) -> io::Result<()> {
        let Ok(file) = fs::open(rt, path) else {
            println!(rt; "no file {path}")?;
            return Ok(());
        };
        let mut list = Vec::new(rt.alloc());
        file.take(ROOM as u64).read_to_end(&mut list)?;
        if list.len() == ROOM {
            println!(rt; "too long: {path}")?;
        }
        self.list(rt, &list)
    }
}

// Runs all lists. Shared with the other test programs it would be handed their files and `run_file`, and be no shorter.
fn main(rt: HostRuntime) -> io::Result<()> {
    let mut run = Run {
        group: Totals::NONE,
        all: Totals::NONE,
    };
    for path in FILES {
        run.file(&rt, path)?;
    }
    println!(rt; "{}", run.all)
}

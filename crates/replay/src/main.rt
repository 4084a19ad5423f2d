// Replays recorded answers of the Rust, with no Rust at hand. Each file of data/ says how it was made. A case is a line:
// its kind, what is expected, and the arguments. A mismatch prints its line.
#![tactic(auto)]

mod builds;
mod lines;
mod stores;

use parts::cuts::{before, is_blank, rest, word};
use parts::totals::Totals;
use std::io::Read;
use std::rt::Files;
use std::{fs, io};
use stores::Store;

// The most bytes of a list.
const LIST_ROOM: u64 = 65536;

const FILES: [&str; 5] = [
    "corpus.txt",
    "walks.txt",
    "readings.txt",
    "builds.txt",
    "stores.txt",
];

// Whether an answer is the expected one; else it is printed.
pub fn same(rt: &impl Print, answer: &[u8], expected: &[u8]) -> io::Result<bool> {
    if answer == expected {
        return Ok(true);
    }
    rt.write_all(b"answer: ")?;
    rt.write_all(answer)?;
    rt.write_all(b"\n")?;
    Ok(false)
}

// Runs one case, by its first word. A kind that nobody knows is wrong.
fn run_case<R: Print + AllocGlobal>(rt: &R, line: &[u8], store: &mut Store) -> io::Result<bool> {
    let args = rest(line);
    match word(line) {
        b"walk" => lines::walk_case(rt, args),
        b"read" => lines::read_case(rt, args),
        b"default" => lines::default_case(rt, args),
        b"build" => builds::build_case(rt, args),
        b"clear" => Ok(store.clear_case()),
        b"insert" => Ok(store.insert_case(rt.alloc(), args)?),
        b"get" => Ok(store.get_case(args)),
        b"none" => Ok(store.none_case(args)),
        _ => Ok(false),
    }
}

fn say_wrong(rt: &impl Print, line: &[u8]) -> io::Result<()> {
    rt.write_all(b"wrong: ")?;
    rt.write_all(line)?;
    rt.write_all(b"\n")
}

// Runs a whole list, over one store.
fn run_list<R: Print + AllocGlobal>(rt: &R, list: &[u8]) -> io::Result<Totals> {
    let mut store = Store::new();
    let mut totals = Totals::NONE;
    for ended in list.split_inclusive(|b| *b == b'\n') {
        let line = before(ended, b'\n');
        if !is_blank(line) {
            let right = run_case(rt, line, &mut store)?;
            if !right {
                say_wrong(rt, line)?;
            }
            totals = totals.counted(right);
        }
    }
    Ok(totals)
}

// Runs the list in a file of at most 65536 bytes, and prints a line for it. A file that is not there is one wrong. The
// test programs print a list, and a file that is not there, each in its own words, so each has this function.
fn run_file<R: Files + Print + AllocGlobal>(rt: &R, path: &str) -> io::Result<Totals> {
    print!(rt; "{path}: ")?;
    let Ok(file) = fs::open(rt, path) else {
        println!(rt; "no such file")?;
        return Ok(Totals { cases: 0, wrong: 1 });
    };
    let mut list = Vec::new(rt.alloc());
    file.take(LIST_ROOM).read_to_end(&mut list)?;
    let totals = run_list(rt, &list)?;
    println!(rt; "{totals}")?;
    Ok(totals)
}

// Runs all lists. Shared with the other test programs it would be handed their files and `run_file`, and be no shorter.
fn main(rt: HostRuntime) -> io::Result<()> {
    let mut all = Totals::NONE;
    for path in FILES {
        all = all.and(run_file(&rt, path)?);
    }
    println!(rt; "{all}")
}

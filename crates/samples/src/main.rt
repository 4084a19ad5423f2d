// Executes the cases of data/ against the library and compares each answer with what is expected.
// A file has groups, `== TITLE`, each of cases, one a line; `#` starts a comment. A mismatch prints its line.
#![tactic(auto)]

mod build_cases;
mod codes;
mod element_cases;
mod form_cases;
mod line_cases;
mod many_cases;
mod pad_cases;
mod regroup_cases;
mod slot_cases;
mod spelled;
mod text_cases;

use parts::cuts::{before, is_blank, rest, word};
use parts::totals::Totals;
use std::io::Read;
use std::rt::Files;
use std::{fs, io};

// The most bytes of a list.
const LIST_ROOM: u64 = 65536;

const FILES: [&str; 4] = ["text.txt", "line.txt", "map.txt", "pad.txt"];

// Runs one case, by its first word. A kind that nobody knows is wrong.
fn run_case<R: Print + AllocGlobal>(rt: &R, line: &[u8]) -> io::Result<bool> {
    let args = rest(line);
    match word(line) {
        b"utf8" => Ok(text_cases::utf8_case(args)),
        b"uuid" => Ok(text_cases::uuid_case(args)),
        b"form" => Ok(form_cases::form_case(args)),
        b"first-form" => Ok(form_cases::first_form_case(args)),
        b"index" => Ok(text_cases::index_case(args)),
        b"put-index" => Ok(text_cases::put_index_case(args)),
        b"put-uuid" => Ok(text_cases::put_uuid_case(args)),
        b"button" => element_cases::button_case(rt, args),
        b"axis" => element_cases::axis_case(rt, args),
        b"element" => element_cases::element_case(rt, args),
        b"map" => element_cases::map_case(rt, args),
        b"map-rev" => element_cases::map_rev_case(rt, args),
        b"entry" => element_cases::entry_case(rt, args),
        b"number" => element_cases::number_case(rt, args),
        b"value" => pad_cases::value_case(rt, args),
        b"event" => pad_cases::event_case(rt, args),
        b"build" => build_cases::build_case(rt, args),
        b"slots" => slot_cases::slots_case(rt, args),
        b"default" => slot_cases::default_case(rt, args),
        b"walk" => line_cases::walk_case(rt, args),
        b"count" => line_cases::count_case(rt, args),
        b"read" => line_cases::read_case(rt, args),
        b"many" => many_cases::many_case(rt, args),
        b"same" => regroup_cases::same_case(rt, args),
        _ => Ok(false),
    }
}

// The groups that have ended, and the one that is open.
#[derive(Drop)]
struct Run {
    all: Totals,
    group: Option<Totals>,
}

impl Run {
    // Ends the group that is open, and prints how it went.
    fn end(&mut self, rt: &impl Print) -> io::Result<()> {
        if let Some(group) = self.group.take() {
            println!(rt; "{group}")?;
            self.all = self.all.and(group);
        }
        Ok(())
    }

    // Opens the group of a title.
    fn open(&mut self, rt: &impl Print, title: &[u8]) -> io::Result<()> {
        self.end(rt)?;
        rt.write_all(title)?;
        rt.write_all(b": ")?;
        self.group = Some(Totals::NONE);
        Ok(())
    }

    // Runs a line of the group that is open; before the first title none is.
    fn line<R: Print + AllocGlobal>(&mut self, rt: &R, line: &[u8]) -> io::Result<()> {
        let Some(group) = self.group else {
            return Ok(());
        };
        let right = run_case(rt, line)?;
        if !right {
            rt.write_all(b"\n  wrong: ")?;
            rt.write_all(line)?;
            rt.write_all(b"\n  ")?;
        }
        self.group = Some(group.counted(right));
        Ok(())
    }
}

// Runs a whole list, and prints a line per group.
fn run_list<R: Print + AllocGlobal>(rt: &R, list: &[u8]) -> io::Result<Totals> {
    let mut run = Run {
        all: Totals::NONE,
        group: None,
    };
    for ended in list.split_inclusive(|b| *b == b'\n') {
        let line = before(ended, b'\n');
        if matches!(word(line), b"==") {
            run.open(rt, rest(line))?;
        } else if !is_blank(line) {
            run.line(rt, line)?;
        }
    }
    run.end(rt)?;
    Ok(run.all)
}

// Runs the list in a file of at most 65536 bytes. A file that is not there is one wrong. The test programs print a list,
// and a file that is not there, each in its own words, so each has this function.
fn run_file<R: Files + Print + AllocGlobal>(rt: &R, path: &str) -> io::Result<Totals> {
    let Ok(file) = fs::open(rt, path) else {
        println!(rt; "no file {path}")?;
        return Ok(Totals { cases: 0, wrong: 1 });
    };
    let mut list = Vec::new(rt.alloc());
    file.take(LIST_ROOM).read_to_end(&mut list)?;
    run_list(rt, &list)
}

// Runs all lists. Shared with the other test programs it would be handed their files and `run_file`, and be no shorter.
fn main(rt: HostRuntime) -> io::Result<()> {
    let mut all = Totals::NONE;
    for path in FILES {
        all = all.and(run_file(&rt, path)?);
    }
    println!(rt; "{all}")
}

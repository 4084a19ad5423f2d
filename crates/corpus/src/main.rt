// Reads the lists of mapping lines that the arguments name, each line with the buttons 10130 to 1014F and the axes
// 30000 to 3000F, and prints what became of them: a line for each list, and one for all.
#![tactic(auto)]

mod figures;

use figures::Figures;
use line::reading::parse_sdl_mapping;
use parts::numbers::{AXIS_CODES, BUTTON_CODES};
use std::io::Read;
use std::rt::Files;
use std::{env, fs, io};
use store::walk::next_line;

// The most bytes of a list.
const LIST_ROOM: usize = 262144;

// Each line as an insert cuts it.
fn read_lines(list: &[u8]) -> Figures {
    let mut figures = Figures::default();
    let mut at = 0;
    while let Some(cut) = next_line(list, at) {
        let line = &list[at..at + cut.len];
        figures.add_line(&parse_sdl_mapping(line, &BUTTON_CODES, &AXIS_CODES));
        at = cut.next;
    }
    figures
}

// The bytes of the file at `path`, at most 262144 of them, or none where it can't be opened.
fn read_file<R: Files + AllocGlobal>(rt: &R, path: &str) -> io::Result<Option<Vec<u8>>> {
    let Ok(file) = fs::open(rt, path) else {
        return Ok(None);
    };
    let mut list = Vec::new(rt.alloc());
    file.take(LIST_ROOM as u64).read_to_end(&mut list)?;
    Ok(Some(list))
}

// The list that an argument names.
fn read_list<R: Files + Print + AllocGlobal>(rt: &R, path: &str) -> io::Result<Figures> {
    let Some(list) = read_file(rt, path)? else {
        println!(rt; "{path}: no such file")?;
        return Ok(Figures::default());
    };
    if list.len() == LIST_ROOM {
        print!(rt; "too long: ")?;
    }
    let figures = read_lines(&list);
    print!(rt; "{path}")?;
    figures.say(rt)?;
    figures.say_sums(rt)?;
    println!(rt; "")?;
    Ok(figures)
}

fn main(rt: HostRuntime) -> io::Result<()> {
    let mut all = Figures::default();
    for path in env::args(&rt)?.skip(1) {
        all.add_list(&read_list(&rt, path.as_str())?);
    }
    print!(rt; "all")?;
    all.say(&rt)?;
    println!(rt; "")
}

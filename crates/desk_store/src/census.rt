// What an insert makes of each line of a list.
use desk::fields::{bare, before, first};
use desk::files::arg_space;
use desk::tally::count_one;
use desk_pads::pairs::is_readable;
use desk_records::records::View;
use store::calls::{StoreError, insert};
use store::parties::Party;
use text::uuid::Uuid;

// How many lines of a list are tried together, and the bytes of their records: a trial of each alone takes the most time of
// an insert of a long list.
const RUN: usize = 16;

const RUN_INDEX: usize = 400;

// What an insert makes of a line: one kind of several, with no value beside it.
#[derive(Clone, Copy, PartialEq, Eq)]
pub enum LineKind {
    Empty,
    Comment,
    // The first field is no UUID.
    NoUuid,
    // The line is of another platform.
    Elsewhere,
    // An insert stops here with 20.
    TooLong,
    Wanted,
}

// Lines that an insert passes over: how many, and the number of the first, from 1 on.
#[derive(Clone, Copy, Default)]
pub struct Passed {
    pub count: usize,
    pub first: Option<usize>,
}

impl Passed {
    pub fn count(&mut self, number: usize) {
        count_one(&mut self.count);
        self.first = self.first.or(Some(number));
    }
}

// How many lines of each kind; of those wanted how many can't be read.
#[derive(Clone, Copy, Default)]
pub struct Census {
    pub empty: usize,
    pub comments: usize,
    pub no_uuid: Passed,
    pub elsewhere: usize,
    pub wanted: usize,
    pub unreadable: usize,
}

// What an empty store makes of a line whose first field is a UUID.
fn trial(line: &[u8]) -> LineKind {
    let mut index = [0u8; 64];
    let mut text = arg_space();
    let inserted = insert(&mut index, &mut text, Party::Hall, line);
    if let Err(StoreError::LineTooLong) = inserted.answer {
        return LineKind::TooLong;
    }
    if index[0] == 0 {
        return LineKind::Elsewhere;
    }
    LineKind::Wanted
}

// The first lines of a list.
fn run_of(list: &[u8]) -> &[u8] {
    let bytes = list
        .split_inclusive(|b| *b == b'\n')
        .take(RUN)
        .fold(0usize, |n, line| n.wrapping_add(line.len()));
    first(list, bytes)
}

fn has_uuid(line: &[u8]) -> bool {
    Uuid::parse_str(before(line, b',')).is_some()
}

// What an empty store makes of each line of a run whose first field is a UUID, where it makes the same of all: it holds as
// many lines as there are such, or none. None where it doesn't, as where two lines have one UUID, and where there are not
// several such lines.
fn trial_of_run(run: &[u8]) -> Option<LineKind> {
    let wanted = run
        .split_inclusive(|b| *b == b'\n')
        .filter(|line| has_uuid(bare(line)))
        .count();
    if wanted < 2 {
        return None;
    }
    let mut index = [0u8; RUN_INDEX];
    let mut text = arg_space();
    insert(&mut index, &mut text, Party::Hall, run).answer.ok()?;
    let store = View {
        index: &index,
        text: &text,
    };
    match store.records().count() {
        0 => Some(LineKind::Elsewhere),
        held if held == wanted => Some(LineKind::Wanted),
        _ => None,
    }
}

// What insert makes of a line.
pub fn kind_of(line: &[u8]) -> LineKind {
    kind_in(line, None)
}

// The same of a line of a run, where all lines of the run that have a UUID are of one kind.
fn kind_in(line: &[u8], run: Option<LineKind>) -> LineKind {
    if line.is_empty() {
        return LineKind::Empty;
    }
    if line.starts_with(b"#") {
        return LineKind::Comment;
    }
    if !has_uuid(line) {
        return LineKind::NoUuid;
    }
    run.unwrap_or_else(|| trial(line))
}

impl Census {
    // The first `count` lines of a list.
    pub fn of(list: &[u8], count: usize) -> Census {
        let mut census = Census::default();
        let mut rest = list;
        let mut run = None;
        for (number, line) in (1..=count).zip(list.split_inclusive(|b| *b == b'\n')) {
            if number % RUN == 1 {
                run = trial_of_run(run_of(rest));
            }
            census.count(bare(line), number, run);
            rest = rest.get(line.len()..).unwrap_or(&[]);
        }
        census
    }

    fn count(&mut self, line: &[u8], number: usize, run: Option<LineKind>) {
        match kind_in(line, run) {
            LineKind::Empty => count_one(&mut self.empty),
            LineKind::Comment => count_one(&mut self.comments),
            LineKind::NoUuid => self.no_uuid.count(number),
            LineKind::Elsewhere => count_one(&mut self.elsewhere),
            LineKind::TooLong => {}
            LineKind::Wanted => {
                count_one(&mut self.wanted);
                if !is_readable(line) {
                    count_one(&mut self.unreadable);
                }
            }
        }
    }
}

// How many lines a list has.
pub fn count_lines(list: &[u8]) -> usize {
    list.split_inclusive(|b| *b == b'\n').count()
}

// Line `n` of a list, from 0 on, without its end; empty past the last.
pub fn nth_line(list: &[u8], n: usize) -> &[u8] {
    bare(list.split_inclusive(|b| *b == b'\n').nth(n).unwrap_or(b""))
}

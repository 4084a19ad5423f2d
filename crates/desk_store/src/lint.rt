// The command lint: every line of a list is read, with no codes.
use crate::census::{LineKind, Passed, kind_of};
use desk::console::Console;
use desk::fields::bare;
use desk::files::read_list;
use desk::forms::{has_other_form, say_form, say_other_forms};
use desk::say::{Failure, OUT, say, say_number};
use desk::tally::count_one;
use desk::words::put_refused;
use desk_pads::excerpt::{put_first_refused, put_reading_refused};
use line::parser::first_token;
use line::reading::parse_sdl_mapping;
use store::calls::StoreError;

// The most refused lines that are shown.
const SHOWN: usize = 1000;

// How many lines were read, how many were refused, and how many an insert passes over.
#[derive(Clone, Copy, Default)]
struct Tally {
    lines: usize,
    comments: usize,
    refused: usize,
    elsewhere: Passed,
    no_uuid: Passed,
    other_forms: usize,
}

impl Passed {
    fn say(self, console: &Console, words: &[u8]) {
        let Some(number) = self.first else {
            return;
        };
        say(console, b"  an insert passes over ");
        say_number(console, self.count);
        say(console, words);
        say(console, b"; the first is line ");
        say_number(console, number);
        say(console, b"\n");
    }
}

fn say_line_number(console: &Console, number: usize) {
    say(console, b"line ");
    say_number(console, number);
    say(console, b": ");
}

impl Tally {
    // A line that is refused; `say_why` says by what.
    fn count_refused<F: FnOnce()>(&mut self, console: &Console, say_why: F)
        requires { F.IsAlwaysCallable say_why }
    {
        if self.refused < SHOWN {
            say_line_number(console, self.lines);
            say_why();
        }
        count_one(&mut self.refused);
    }

    // A line that an insert refuses with 20.
    fn count_long(&mut self, console: &Console, line: &[u8]) {
        self.count_refused(console, || {
            put_refused(
                console,
                OUT,
                usize::from(StoreError::LineTooLong.refusal().number),
            );
            say(console, b": it has ");
            say_number(console, line.len());
            say(console, b"\n");
        });
    }

    // A line that can be read: whether an insert files it.
    fn count_readable(&mut self, console: &Console, line: &[u8]) {
        match kind_of(line) {
            LineKind::NoUuid => self.no_uuid.count(self.lines),
            LineKind::Elsewhere => self.elsewhere.count(self.lines),
            LineKind::TooLong => self.count_long(console, line),
            LineKind::Empty | LineKind::Comment | LineKind::Wanted => {}
        }
    }

    // A line that an insert files, readable or not, whose UUID is in another form than 32 digits.
    fn count_form(&mut self, console: &Console, line: &[u8]) {
        if has_other_form(line) && kind_of(line) == LineKind::Wanted {
            say_line_number(console, self.lines);
            say_form(console, line);
            count_one(&mut self.other_forms);
        }
    }

    fn count_read(&mut self, console: &Console, line: &[u8]) {
        match parse_sdl_mapping(line, &[], &[]).answer {
            Ok(()) => self.count_readable(console, line),
            Err(e) => self.count_refused(console, || {
                let _ = put_reading_refused(console, OUT, e, line);
            }),
        }
    }

    fn count(&mut self, console: &Console, line: &[u8]) {
        count_one(&mut self.lines);
        if line.is_empty() {
            return;
        }
        if line.starts_with(b"#") {
            count_one(&mut self.comments);
            return;
        }
        self.count_form(console, line);
        match first_token(line) {
            Some(Ok(_)) => self.count_read(console, line),
            Some(Err(e)) => self.count_refused(console, || {
                let _ = put_first_refused(console, OUT, e, line);
            }),
            None => {}
        }
    }

    fn say(self, console: &Console) {
        if SHOWN < self.refused {
            say_number(console, self.refused - SHOWN);
            say(console, b" more refused lines are not shown\n");
        }
        say_number(console, self.lines);
        say(console, b" lines, ");
        say_number(console, self.comments);
        say(console, b" comments, ");
        say_number(console, self.refused);
        say(console, b" refused\n");
        self.elsewhere.say(console, b" for other platforms");
        self.no_uuid
            .say(console, b" whose first field is no UUID but xinput");
        say_other_forms(console, self.other_forms);
    }
}

// `hub lint FILE`
pub fn lint_list(console: &Console, path: &[u8]) -> Result<(), Failure> {
    let list = read_list(console, path)?;
    let mut tally = Tally::default();
    for line in list.split_inclusive(|b| *b == b'\n') {
        tally.count(console, bare(line));
    }
    tally.say(console);
    if tally.refused == 0 {
        return Ok(());
    }
    Err(Failure::Refused)
}

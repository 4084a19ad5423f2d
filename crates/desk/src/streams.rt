// Recordings that are open, one or two, taken record by record in the order of their times. Each keeps its own order,
// also where its times go backwards.
use crate::console::{Console, open_read};
use crate::fields::{after, before};
use crate::input_events::{Input, InputError, next_input};
use crate::say::{ERR, Failure, complain, put_value};
use crate::shown::{complain_shown, fail};
use std::fs::File;

// A recording: where it is read, if it is open, and its next record, if there is one.
#[derive(Default, Drop)]
pub struct Stream {
    pub file: Option<File>,
    pub next: Option<Result<Input, InputError>>,
}

// Whose record comes next.
#[derive(Clone, Copy)]
pub enum Turn {
    First(Input),
    Second(Input),
}

// No recording.
pub fn no_stream() -> Stream {
    Stream::default()
}

// The recording that an argument names; what can't be opened is said.
pub fn open_stream(console: &Console, arg: &[u8]) -> Result<Stream, Failure> {
    let path = after(arg, b'=');
    if path.is_empty() {
        complain_shown(console, before(arg, b'='));
        complain(console, b"=: no file is named\n");
        return Err(Failure::Trouble);
    }
    let file = open_read(console, path).map_err(|error| fail(console, path, error))?;
    Ok(Stream {
        file: Some(file),
        next: None,
    })
}

impl Stream {
    // Goes to the next record.
    pub fn move_on(&mut self) {
        if let Some(file) = &mut self.file {
            self.next = next_input(file);
        }
    }

    // Says where the recording that an argument names ends inside a record, or can't be read on.
    pub fn end(&self, console: &Console, arg: &[u8]) -> Result<(), Failure> {
        let path = after(arg, b'=');
        match self.next {
            Some(Err(InputError::Cut(left))) => Err(complain_cut(console, path, left)),
            Some(Err(InputError::Failed(error))) => Err(fail(console, path, error)),
            _ => Ok(()),
        }
    }
}

// Whose record comes next: the earlier one, the first recording's between equals. None where it is over, as where one
// can't be read on.
pub fn turn_of(first: &Stream, second: &Stream) -> Option<Turn> {
    match (first.next, second.next) {
        (Some(Err(InputError::Failed(_))), _) | (_, Some(Err(InputError::Failed(_)))) => None,
        (Some(Ok(a)), Some(Ok(b))) if b.time < a.time => Some(Turn::Second(b)),
        (Some(Ok(a)), _) => Some(Turn::First(a)),
        (_, Some(Ok(b))) => Some(Turn::Second(b)),
        _ => None,
    }
}

fn complain_cut(console: &Console, path: &[u8], left: usize) -> Failure {
    complain_shown(console, path);
    put_value(
        console,
        ERR,
        format_args!(
            ": a record has 24 bytes, and the last one only {left}; such a file is no whole recording of input events\n"
        ),
    );
    Failure::Trouble
}

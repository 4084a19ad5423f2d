// What the programs ask of the system: the three outputs, the arguments, and files by the bytes of their names.
// Where the reader of a pipe has gone, a program says and changes nothing more, and ends as the signal SIGPIPE ends one.
ghost use Rattle.std.specs.Prelude.{◌≤◌, length};

use crate::fields::{before, first, without};
use std::alloc::Global;
use std::cell::Cell;
use std::env::FillError;
use std::fmt::Display;
use std::fs::{File, OpenOptions};
use std::io::{Cursor, Error, ErrorKind, Result, Write};
use std::rt::Env;
use std::{fs, str};

// The outputs are the system's numbers, and parameters that name one are numbers, not an enum of three: any number may
// come in, and one that is none of the three is not written to. The console and the number stay two parameters: tied
// into one value they would name the same two things at each call, and most callers have the console alone.
pub const OUT: i32 = 1;

pub const ERR: i32 = 2;

// The descriptor from which the script `hub` takes the status. A byte before the status says that something could not
// be written.
pub const STATUS: i32 = 3;

// The system's number of a name that is no text.
pub const NO_TEXT: i32 = 84;

// Its numbers of no error, and of an output that is not open.
pub(crate) const NO_ERROR: i32 = 0;

const NO_OUTPUT: i32 = 9;

// The room for an error in words.
const WORDS_ROOM: usize = 128;

// The system; whether the script `hub` takes a status; and whether the reader of an output has gone. The two stay
// flags: each says one thing by itself, and no value stands beside it.
#[derive(Drop)]
pub struct Console {
    rt: HostRuntime,
    scripted: Cell<bool>,
    closed: Cell<bool>,
}

impl Console {
    pub fn new(rt: HostRuntime) -> Console {
        Console {
            rt,
            scripted: Cell::new(false),
            closed: Cell::new(false),
        }
    }

    // The script `hub` takes a status from its descriptor.
    pub fn serve_script(&self) {
        self.scripted.set(true);
    }

    // Where files are kept while a command is at work.
    pub fn alloc(&self) -> Global {
        self.rt.alloc()
    }

    // Whether the reader of an output has gone.
    pub fn is_closed(&self) -> bool {
        self.closed.get()
    }

    // Whether all was written. What nobody reads counts as written.
    fn was_written(&self, done: Result<()>) -> bool {
        match done {
            Ok(()) => true,
            Err(error) if error.kind() == ErrorKind::BrokenPipe => {
                self.closed.set(true);
                true
            }
            Err(_) => false,
        }
    }
}

// Without the script that descriptor may be any file, which is left alone.
fn status_file(console: &Console) -> Result<File> {
    if !console.scripted.get() {
        return Err(Error::from_raw_os_error(NO_OUTPUT));
    }
    let mut options = OpenOptions::new();
    options.append(true);
    options.open(&console.rt, "/dev/fd/3")
}

// One of the three outputs, by the system's number.
#[derive(Drop)]
struct Output<'a> {
    console: &'a Console,
    fd: i32,
}

impl Write for Output<'_> {
    fn write(&mut self, bytes: &[u8]) -> Result<usize> {
        self.write_all(bytes)?;
        Ok(bytes.len())
    }

    // No output holds bytes back.
    fn flush(&mut self) -> Result<()> {
        Ok(())
    }

    // Where the reader of an output has gone nothing more is written.
    fn write_all(&mut self, bytes: &[u8]) -> Result<()> {
        let console = self.console;
        if console.is_closed() {
            return Ok(());
        }
        match self.fd {
            OUT => console.rt.stdout().write_all(bytes),
            ERR => console.rt.stderr().write_all(bytes),
            STATUS => status_file(console)?.write_all(bytes),
            _ => Err(Error::from_raw_os_error(NO_OUTPUT)),
        }
    }
}

// Writes all of it to one of the three outputs, and says whether that was done.
pub fn write(console: &Console, fd: i32, bytes: &[u8]) -> bool {
    let mut output = Output { console, fd };
    console.was_written(output.write_all(bytes))
}

// The same of a value in words or digits.
pub fn print<D: Display + Drop>(console: &Console, fd: i32, value: D) -> bool {
    let mut output = Output { console, fd };
    console.was_written(write!(output, "{value}"))
}

// Writes an error's words, as `: No such file or directory`, and a line end.
pub fn write_error(console: &Console, error: Error) {
    let mut words = Cursor::new([0u8; WORDS_ROOM]);
    let _ = write!(words, "{error}");
    let n = words.position() as usize;
    let room = words.into_inner();
    let told = before(first(&room, n), b'(');
    write(console, ERR, b": ");
    write(console, ERR, without(told, b' '));
    write(console, ERR, b"\n");
}

// Argument `i`, which is put into `space`; nothing where there is none, or it is longer.
pub fn argument<'a>(console: &Console, i: usize, space: &'a mut [u8]) -> &'a [u8]
    ensures { length result.now ≤ length space.old }
{
    let n = console.rt.arg(i, space).unwrap_or(0);
    first(space, n)
}

// Whether argument `i` is longer than the room.
pub fn is_too_long(console: &Console, i: usize, space: &mut [u8]) -> bool {
    matches!(console.rt.arg(i, space), Err(FillError::TooLong))
}

fn is_given(console: &Console, i: usize) -> bool {
    let mut space = [0u8; 1];
    !matches!(console.rt.arg(i, &mut space), Err(FillError::NotPresent))
}

// How many arguments there are, the program's name among them.
pub fn argument_count(console: &Console) -> usize {
    (0..usize::MAX)
        .take_while(|i| is_given(console, *i))
        .count()
}

// The name of a file as text. One that is not UTF-8 names no file here.
fn path_of(bytes: &[u8]) -> Result<&str> {
    str::from_utf8(bytes).map_err(|_| Error::from_raw_os_error(NO_TEXT))
}

pub fn open_read(console: &Console, path: &[u8]) -> Result<File> {
    File::open(&console.rt, path_of(path)?)
}

pub fn create_new(console: &Console, path: &[u8]) -> Result<File> {
    let mut options = OpenOptions::new();
    options.write(true).create_new(true);
    options.open(&console.rt, path_of(path)?)
}

pub fn remove_file(console: &Console, path: &[u8]) -> Result<()> {
    fs::remove_file(&console.rt, path_of(path)?)
}

pub fn rename(console: &Console, from: &[u8], to: &[u8]) -> Result<()> {
    fs::rename(&console.rt, path_of(from)?, path_of(to)?)
}

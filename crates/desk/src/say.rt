// What is printed: answers on standard output; refusals, `none`, `near` and trouble on standard error.
use crate::console::{Console, print, write};
pub use crate::console::{ERR, OUT, STATUS};
use std::alloc::AllocError;
use std::fmt::Display;
use text::uuid::Uuid;

// Why a command, or a step of one, was not done: it was refused, or found nothing; or wrong use, or trouble with a file;
// or too little memory, which is said where the program ends, the others where they come up. The greater is the worse.
#[derive(Clone, Copy, PartialEq, Eq, PartialOrd, Ord)]
pub enum Failure {
    Refused,
    Trouble,
    NoMemory,
}

impl From<AllocError> for Failure {
    fn from(_error: AllocError) -> Failure {
        Failure::NoMemory
    }
}

// The program's exit status.
pub fn exit_status(done: Result<(), Failure>) -> u8 {
    match done {
        Ok(()) => 0,
        Err(Failure::Refused) => 1,
        Err(Failure::Trouble | Failure::NoMemory) => 2,
    }
}

// Notes for the script `hub` that something could not be written.
fn noted(console: &Console, written: bool) {
    if !written {
        write(console, STATUS, b"2");
    }
}

pub fn put(console: &Console, fd: i32, text: &[u8]) {
    noted(console, write(console, fd, text));
}

// A value in words or digits.
pub fn put_value<D: Display + Drop>(console: &Console, fd: i32, value: D) {
    noted(console, print(console, fd, value));
}

pub fn put_number(console: &Console, fd: i32, n: usize) {
    put_value(console, fd, n);
}

// A code, in hexadecimal.
pub fn put_code(console: &Console, fd: i32, code: u32) {
    put_value(console, fd, format_args!("{code:x}"));
}

// A UUID, in 32 digits.
pub fn put_uuid(console: &Console, fd: i32, id: Uuid) {
    let high = id.high;
    let low = id.low;
    put_value(console, fd, format_args!("{high:016x}{low:016x}"));
}

pub fn say(console: &Console, text: &[u8]) {
    put(console, OUT, text);
}

pub fn say_number(console: &Console, n: usize) {
    put_number(console, OUT, n);
}

// A count with its words, in a row of its own; nothing where it is 0.
pub fn say_count(console: &Console, n: usize, words: &[u8]) {
    if n == 0 {
        return;
    }
    say(console, b"  ");
    say_number(console, n);
    say(console, words);
    say(console, b"\n");
}

pub fn complain(console: &Console, text: &[u8]) {
    put(console, ERR, text);
}

// Says that there was too little memory for a command.
pub fn complain_memory(console: &Console, done: Result<(), Failure>) {
    if done == Err(Failure::NoMemory) {
        complain(console, b"there is not enough memory for this\n");
    }
}

// Refusals in words: document 01's number, what it means, and what it is about. bindings/declared holds these words to those of
// the header and of the Rust crate. A refusal is its number here, not a type: document 01's numbers are what is typed
// after `hub help` and what is printed.
use crate::advice::put_advice;
use crate::console::Console;
use crate::say::{ERR, Failure, complain, put, put_value};
use crate::shown::complain_shown;

// What each refusal means, from number 1 on. bindings/declared reads the rows here.
const MEANINGS: [&[u8]; 27] = [
    b"the first field is no UUID",
    b"no comma follows the UUID",
    b"a pair has not exactly one colon",
    b"a pair's value is none: aN, bN or hH.D with numbers up to 65535",
    b"an axis value has an unknown key",
    b"a button or hat value has an unknown key",
    b"hat 0 has no such direction: 0, 1, 2, 4 or 8",
    b"a pair's value is empty",
    b"nothing follows a refused first field",
    b"not UTF-8",
    b"more than 256 codes in a map",
    b"a list of more than 1024 codes",
    b"the name has a comma",
    b"the element is Unknown",
    b"the code is not in its list",
    b"no mapping line can name this axis",
    b"the name has more than 8192 bytes",
    b"the output is too short",
    b"not a sound store",
    b"a wanted line of more than 16384 bytes",
    b"no room in the index",
    b"the name has a line end or platform:",
    b"an index of more than 1048576 bytes, or a text of more than 16777216",
    b"an organiser's owner is 1 to 255, not 0",
    b"no room in the text, the parties' shares counted",
    b"the text is too small for that share",
    b"more than 256 codes held by a pad",
];

// The number of a file that is no store, and of an owner that none can have: with these, more is printed than what they
// mean.
const UNSOUND: usize = 19;

const NO_OWNER: usize = 24;

// The row on a refusal, of a list from number 1 on; None where no refusal has that number.
pub(crate) fn row_on(rows: &[&'static [u8]], number: usize) -> Option<&'static [u8]> {
    rows.get(number.checked_sub(1)?).copied()
}

// `refused 21: no room in the index`
pub fn put_refused(console: &Console, fd: i32, number: usize) {
    put_value(console, fd, format_args!("refused {number}: "));
    put(console, fd, row_on(&MEANINGS, number).unwrap_or(b""));
}

pub fn put_place(console: &Console, fd: i32, place: usize) {
    put_value(console, fd, format_args!(" (place {place})\n"));
}

// Each of these says what was refused.
pub fn refused(console: &Console, number: usize) -> Failure {
    put_refused(console, ERR, number);
    complain(console, b"\n");
    if number == NO_OWNER {
        put_advice(console, ERR, number);
    }
    Failure::Refused
}

pub fn refused_at(console: &Console, number: usize, place: usize) -> Failure {
    put_refused(console, ERR, number);
    put_place(console, ERR, place);
    Failure::Refused
}

pub fn refused_code(console: &Console, number: usize, code: u32) -> Failure {
    put_refused(console, ERR, number);
    put_value(console, ERR, format_args!(" (code {code:x})\n"));
    Failure::Refused
}

pub fn refused_file(console: &Console, path: &[u8]) -> Failure {
    put_refused(console, ERR, UNSOUND);
    complain(console, b" (");
    complain_shown(console, path);
    complain(
        console,
        b" has not the 131070 or the 17825792 bytes of a store file, and is left alone)\n",
    );
    Failure::Refused
}

// Nothing was found.
pub fn none(console: &Console) -> Failure {
    complain(console, b"none\n");
    Failure::Refused
}

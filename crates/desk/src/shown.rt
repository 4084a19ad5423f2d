// Texts that others wrote, on the screen: no control byte reaches the terminal. Where a text has any, each is written
// as \x and two digits; a text that is not UTF-8 has none of its bytes over 127 left. Under a mark each byte takes one
// column.
use crate::console::{Console, write_error};
use crate::fields::first;
use crate::say::{ERR, Failure, OUT, put, put_value};
use std::io::Error;
use std::str;

// The most columns before a mark.
const COLUMNS: usize = 320;

// Whether a byte is printable ASCII.
fn is_plain(b: u8) -> bool {
    matches!(b, b' '..=b'~')
}

// Bytes as \x and two digits each.
fn put_hidden(console: &Console, fd: i32, bytes: &[u8]) {
    for b in bytes {
        put_value(console, fd, format_args!("\\x{b:02x}"));
    }
}

// A character; the bytes of a control character are hidden.
fn put_char(console: &Console, fd: i32, c: char) {
    let mut space = [0u8; 4];
    let bytes = c.encode_utf8(&mut space).as_bytes();
    if c.is_control() {
        put_hidden(console, fd, bytes);
        return;
    }
    put(console, fd, bytes);
}

fn put_text(console: &Console, fd: i32, text: &str) {
    if !text.chars().any(|c| c.is_control()) {
        put(console, fd, text.as_bytes());
        return;
    }
    for c in text.chars() {
        put_char(console, fd, c);
    }
}

// A text that is not UTF-8.
fn put_bytes(console: &Console, fd: i32, s: &[u8]) {
    for b in s {
        if is_plain(*b) {
            put(console, fd, &[*b]);
        } else {
            put_hidden(console, fd, &[*b]);
        }
    }
}

pub fn put_shown(console: &Console, fd: i32, s: &[u8]) {
    match str::from_utf8(s) {
        Ok(text) => put_text(console, fd, text),
        Err(_) => put_bytes(console, fd, s),
    }
}

pub fn say_shown(console: &Console, s: &[u8]) {
    put_shown(console, OUT, s);
}

pub fn complain_shown(console: &Console, s: &[u8]) {
    put_shown(console, ERR, s);
}

// Says what failed, and why, by the system's words.
pub fn fail(console: &Console, what: &[u8], error: Error) -> Failure {
    complain_shown(console, what);
    write_error(console, error);
    Failure::Trouble
}

fn put_columns(console: &Console, fd: i32, s: &[u8]) {
    for b in s {
        let shown = if is_plain(*b) { *b } else { b'.' };
        put(console, fd, &[shown]);
    }
}

// A text in which each byte takes one column: one that is no printable ASCII is a dot.
pub fn put_plain(console: &Console, fd: i32, s: &[u8]) {
    if s.iter().all(|b| is_plain(*b)) {
        put(console, fd, s);
        return;
    }
    put_columns(console, fd, s);
}

// That many columns of space.
pub fn put_space(console: &Console, fd: i32, n: usize) {
    let columns = [b' '; COLUMNS];
    put(console, fd, first(&columns, n));
}

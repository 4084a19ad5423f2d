// Codes on the command line: hexadecimal, a list with commas, a range with a hyphen. A code is its kind, 1 for buttons
// and 3 for axes, and four digits.
use crate::console::{Console, argument, argument_count};
use crate::fields::{after, before, first, without};
use crate::files::arg_space;
use crate::say::{ERR, complain, put, put_code};
use crate::shown::complain_shown;
use std::str;
use text::decimal::parse_u16;

// One more than the most codes of a list: a longer list is cut here, and refused for its length as it would be whole.
const LONGEST: usize = 1025;

// The kinds of the Linux input headers: EV_KEY and EV_ABS. Functions that take one from a caller take its number too.
#[derive(Clone, Copy, PartialEq, Eq)]
pub enum Kind {
    Button,
    Axis,
}

impl From<u32> for Kind {
    // The kind that a number stands for: 1 for buttons, any other for axes.
    fn from(number: u32) -> Kind {
        Kind::of_number(number).unwrap_or(Kind::Axis)
    }
}

impl Kind {
    // The kind with a number of the headers.
    pub fn of_number(number: u32) -> Option<Kind> {
        match number {
            1 => Some(Kind::Button),
            3 => Some(Kind::Axis),
            _ => None,
        }
    }

    // The kind of a code.
    pub fn of_code(code: u32) -> Option<Kind> {
        Kind::of_number(code / 0x10000)
    }

    // The code of this kind with that number.
    pub fn code(self, number: u16) -> u32 {
        match self {
            Kind::Button => 0x10000 + number as u32,
            Kind::Axis => 0x30000 + number as u32,
        }
    }

    // The same, where this kind has a code of that number: keys go up to 2ff, axes up to 3f.
    fn code_at(self, number: u16) -> Option<u32> {
        let end = match self {
            Kind::Button => 0x300,
            Kind::Axis => 0x40,
        };
        (number < end).then_some(self.code(number))
    }
}

// A list of codes. It has a fixed room and a length: a list that grows would have to ask for memory, and the functions
// that make one can't fail. The kit's ArrayVec asks for none, and was tried: it is not Copy and its clone can fail, so
// that a request could no longer hand out a list that it keeps.
#[derive(Clone, Copy)]
pub struct Codes {
    list: [u32; LONGEST],
    len: usize,
}

impl Codes {
    pub fn new() -> Codes {
        Codes {
            list: [0u32; LONGEST],
            len: 0,
        }
    }

    pub fn as_slice(&self) -> &[u32] {
        first(&self.list, self.len)
    }

    pub fn is_empty(&self) -> bool {
        self.len == 0
    }

    // One code more; none past the end.
    pub fn push(&mut self, code: u32) {
        if self.len < LONGEST {
            self.list[self.len] = code;
            self.len += 1;
        }
    }

    // The codes from one to another.
    fn push_range(&mut self, from: u32, to: u32) {
        for code in (from..=to).take(LONGEST) {
            self.push(code);
        }
    }
}

// A text without `0x` at its start.
fn digits_of(s: &[u8]) -> &[u8] {
    s.strip_prefix(b"0x").unwrap_or(s)
}

// The number that 1 to 8 hexadecimal digits spell, after `0x` or not.
pub fn parse_code(text: &[u8]) -> Option<u32> {
    let digits = digits_of(text);
    if 8 < digits.len() || !digits.iter().all(|b| b.is_ascii_hexdigit()) {
        return None;
    }
    u32::from_str_radix(str::from_utf8(digits).ok()?, 16).ok()
}

// A code as it is typed.
#[derive(Clone, Copy)]
pub struct Typed<'a> {
    pub text: &'a [u8],
    pub code: u32,
}

impl<'a> Typed<'a> {
    pub fn parse(text: &'a [u8]) -> Option<Typed<'a>> {
        let code = parse_code(text)?;
        Some(Typed { text, code })
    }

    // The code, if it is of that kind; one of another kind is turned away.
    fn of_kind(self, console: &Console, kind: Kind) -> Option<u32> {
        if Kind::of_code(self.code) == Some(kind) {
            return Some(self.code);
        }
        self.complain_kind(console, kind);
        None
    }

    // Turns away a code of another kind.
    pub fn complain_kind<K: Into<Kind>>(self, console: &Console, kind: K) {
        let kind = kind.into();
        complain_shown(console, self.text);
        match kind {
            Kind::Button => complain(
                console,
                b": no code of a button, which is 1 and four hexadecimal digits, as 10130",
            ),
            Kind::Axis => complain(
                console,
                b": no code of an axis, which is 3 and four hexadecimal digits, as 30000",
            ),
        }
        self.complain_spellings(console, kind);
        complain(console, b"\n");
    }

    // What a number without its kind would be, in decimal and in hexadecimal.
    fn complain_spellings(self, console: &Console, kind: Kind) {
        if let Some(n) = parse_u16(self.text) {
            complain_meant(console, b"; evtest's decimal ", self.text, kind.code_at(n));
        }
        if self.code < 10 {
            return;
        }
        if let Ok(n) = u16::try_from(self.code) {
            complain_meant(
                console,
                b"; hexadecimal ",
                digits_of(self.text),
                kind.code_at(n),
            );
        }
    }
}

// What a number may have meant.
fn complain_meant(console: &Console, spelling: &[u8], s: &[u8], meant: Option<u32>) {
    if let Some(code) = meant {
        complain(console, spelling);
        complain_shown(console, s);
        complain(console, b" is ");
        put_code(console, ERR, code);
    }
}

// The first and the last code of `10130`, or of `10130-1013e`; what is no such range is said.
fn range_of(console: &Console, s: &[u8], kind: Kind) -> Option<(u32, u32)> {
    let low = before(s, b'-');
    let high = if low.len() == s.len() {
        s
    } else {
        after(s, b'-')
    };
    let (Some(low), Some(high)) = (Typed::parse(low), Typed::parse(high)) else {
        complain_shown(console, s);
        complain(
            console,
            b": no code or range of codes; a code has 1 to 8 hexadecimal digits\n",
        );
        return None;
    };
    let from = low.of_kind(console, kind)?;
    let to = high.of_kind(console, kind)?;
    if to < from {
        complain_shown(console, low.text);
        complain(console, b"-");
        complain_shown(console, high.text);
        complain(console, b": the range ends before it starts\n");
        return None;
    }
    Some((from, to))
}

// The codes of a list with commas; whether all its parts are some. It goes on behind a part that is none, so that each
// of these is said: a bool, and not `?`.
fn push_parts(console: &Console, codes: &mut Codes, s: &[u8], kind: Kind) -> bool {
    let mut all = true;
    for part in s.split_inclusive(|b| *b == b',') {
        match range_of(console, without(part, b','), kind) {
            Some((from, to)) => codes.push_range(from, to),
            None => all = false,
        }
    }
    all
}

// The codes of argument `i`, where it is `KEY=CODES`; whether all its parts are some.
fn push_arg(console: &Console, codes: &mut Codes, key: &[u8], kind: Kind, i: usize) -> bool {
    let mut space = arg_space();
    let pair = argument(console, i, &mut space);
    if before(pair, b'=') != key {
        return true;
    }
    push_parts(console, codes, after(pair, b'='), kind)
}

// The codes of a kind that the arguments from `from` on give under a key, as `buttons`; None where a part is none, which
// is said.
pub fn codes_named<K: Into<Kind>>(
    console: &Console,
    key: &[u8],
    kind: K,
    from: usize,
) -> Option<Codes> {
    let kind = kind.into();
    let mut codes = Codes::new();
    let mut all = true;
    for i in from..argument_count(console) {
        if !push_arg(console, &mut codes, key, kind, i) {
            all = false;
        }
    }
    all.then_some(codes)
}

// `10130,10131`
pub fn put_codes(console: &Console, fd: i32, codes: &[u32]) {
    for (i, code) in codes.iter().enumerate() {
        if i != 0 {
            put(console, fd, b",");
        }
        put_code(console, fd, *code);
    }
}

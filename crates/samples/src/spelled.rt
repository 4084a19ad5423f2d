// The lines that a case spells, and answers as they are spelled.
use line::ev::Code;
use line::refusal::Refusal;
use parts::cuts::first;
use parts::numbers::unhex;
use spelling::{Data, Refused};
use std::alloc::{AllocError, Global};
use std::{fmt, io};

// The most bytes of a line or a name that a case spells.
pub const ROOM: usize = 8704;

const NIL: &[u8] = b"00000000000000000000000000000000";

// A refusal as the cases have it: `!13`, `!4@38` with a place, `!15=131` with a code.
pub fn refused(refusal: Refusal) -> Refused {
    Refused(Data::Cases, refusal)
}

// What there is, or `-`.
#[derive(Clone, Copy)]
pub struct OrDash<T>(pub Option<T>);

impl<T: fmt::Display> fmt::Display for OrDash<T> {
    fn fmt<W: fmt::Write>(&self, f: &mut fmt::Formatter<W>) -> fmt::Result {
        match &self.0 {
            Some(x) => write!(f, "{x}"),
            None => write!(f, "-"),
        }
    }
}

// A code in hexadecimal.
#[derive(Clone, Copy)]
pub struct Hex(pub Code);

impl fmt::Display for Hex {
    fn fmt<W: fmt::Write>(&self, f: &mut fmt::Formatter<W>) -> fmt::Result {
        write!(f, "{:x}", self.0.0)
    }
}

// Whether an answer is the expected one; else it is printed.
pub fn is(rt: &impl Print, answer: &[u8], expected: &[u8]) -> io::Result<bool> {
    if answer == expected {
        return Ok(true);
    }
    rt.write_all(b"\n  answer: ")?;
    rt.write_all(answer)?;
    Ok(false)
}

// The first bytes of a text, at most 8704.
pub fn copied(alloc: Global, s: &[u8]) -> Result<Vec<u8>, AllocError> {
    let mut out = Vec::new(alloc);
    out.extend_from_slice(first(s, ROOM))?;
    Ok(out)
}

// The bytes that hexadecimal digits spell, at most 512.
pub fn unhexed(alloc: Global, s: &[u8]) -> Result<Vec<u8>, AllocError> {
    let mut space = [0u8; 512];
    let n = unhex(s, &mut space);
    copied(alloc, &space[..n])
}

// The line that a case spells: the first field `U` stands for 32 zeros, and `\41C3` is those bytes.
pub fn spelled(alloc: Global, s: &[u8]) -> Result<Vec<u8>, AllocError> {
    match s {
        [b'\\', digits @ ..] => unhexed(alloc, digits),
        [b'U'] => copied(alloc, NIL),
        [b'U', b',', fields @ ..] => {
            let mut line = copied(alloc, NIL)?;
            line.push(b',')?;
            line.extend_from_slice(fields)?;
            line.truncate(ROOM);
            Ok(line)
        }
        _ => copied(alloc, s),
    }
}

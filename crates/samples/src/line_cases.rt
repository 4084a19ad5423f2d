// Cases of the walker and of reading. In a case the first field `U` stands for 32 zeros, and `\41C3` is those bytes.
// A token is written `U<low half>`, `N<start>+<len>`, `P<start>+<len>`, or `A<axis>`, `B<button>`, `H<hat>.<direction>`
// with `><element>`, the input and the output range, `F`, `U` or `L`, and `~` where inverted; a refusal
// `!<number>@<place>`; the end `E`; a map `<name start>+<name len>;<hat flags>;<code>=<element>,..`, an element with its
// ranges as a token has them where they are not full.
use crate::spelled::{is, refused, spelled};
use line::parser::first_token;
use line::parser::tokens::count_tokens;
use line::reading::{SdlMapping, parse_sdl_mapping};
use parts::cuts::{before, count_of, rest, word};
use spelling::{Answered, Data, MapText, Walk};
use std::fmt::Write;
use std::{fmt, io};

const BUTTONS: [u32; 2] = [0x10130, 0x10131];

const AXES: [u32; 1] = [0x30000];

// `walk ANSWERS TEXT`: a call for each slash; the first also of a walker that is made anew.
pub fn walk_case<R: Print + AllocGlobal>(rt: &R, args: &[u8]) -> io::Result<bool> {
    let line = spelled(rt.alloc(), rest(args))?;
    let first = format!(in rt.alloc(); "{}", Answered(Data::Cases, first_token(&line)))?;
    if !is(rt, first.as_bytes(), before(word(args), b'/'))? {
        return Ok(false);
    }
    let walk = Walk {
        data: Data::Cases,
        line: &line,
        calls: count_of(word(args), b'/'),
    };
    let out = format!(in rt.alloc(); "{walk}")?;
    is(rt, out.as_bytes(), word(args))
}

// `count ANSWER TEXT`: the number of tokens, and the last refusal.
pub fn count_case<R: Print + AllocGlobal>(rt: &R, args: &[u8]) -> io::Result<bool> {
    let line = spelled(rt.alloc(), rest(args))?;
    let tokens = count_tokens(&line);
    let mut out = format!(in rt.alloc(); "{}", tokens.count)?;
    if let Some(e) = tokens.last {
        write!(out, "{}", refused(e.refusal()))?;
    }
    is(rt, out.as_bytes(), word(args))
}

// A reading: the refusal and `;`, if it is refused, and the map. A refused reading has the empty map too.
#[derive(Clone, Copy)]
pub struct Reading<'a>(pub &'a SdlMapping);

impl fmt::Display for Reading<'_> {
    fn fmt<W: fmt::Write>(&self, f: &mut fmt::Formatter<W>) -> fmt::Result {
        if let Err(e) = self.0.answer {
            write!(f, "{};", refused(e.refusal()))?;
        }
        write!(f, "{}", MapText(&self.0.map))
    }
}

// `read ANSWER TEXT`, with buttons 10130 and 10131 and axis 30000
pub fn read_case<R: Print + AllocGlobal>(rt: &R, args: &[u8]) -> io::Result<bool> {
    let line = spelled(rt.alloc(), rest(args))?;
    let reading = parse_sdl_mapping(&line, &BUTTONS, &AXES);
    let out = format!(in rt.alloc(); "{}", Reading(&reading))?;
    is(rt, out.as_bytes(), word(args))
}

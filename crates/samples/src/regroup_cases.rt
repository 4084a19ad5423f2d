// Cases of pairs in another order: two lines that have one map.
use crate::line_cases::Reading;
use crate::spelled::{is, spelled};
use line::reading::parse_sdl_mapping;
use parts::cuts::{after, before, first};
use parts::numbers::{AXIS_CODES, BUTTON_CODES};
use std::alloc::{AllocError, Global};
use std::io;

// What a line reads as, with 16 buttons and 8 axes.
fn reading(alloc: Global, s: &[u8]) -> Result<String, AllocError> {
    let line = spelled(alloc, s)?;
    let read = parse_sdl_mapping(&line, first(&BUTTON_CODES, 16), first(&AXIS_CODES, 8));
    format!(in alloc; "{}", Reading(&read))
}

// `same LINE|OTHER`: both are accepted and have the same map.
pub fn same_case<R: Print + AllocGlobal>(rt: &R, args: &[u8]) -> io::Result<bool> {
    let one = reading(rt.alloc(), before(args, b'|'))?;
    if one.as_str().starts_with("!") {
        return is(rt, one.as_bytes(), b"");
    }
    let other = reading(rt.alloc(), after(args, b'|'))?;
    is(rt, other.as_bytes(), one.as_bytes())
}

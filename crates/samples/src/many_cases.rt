// Cases of reading with long lines and long lists.
use crate::spelled::{ROOM, is, refused, spelled};
use line::reading::parse_sdl_mapping;
use parts::cuts::{first, rest, word};
use parts::numbers::{number, numbered};
use std::alloc::{AllocError, Global};
use std::io;

// The line `START,a:b0,a:b1,..END` with so many pairs.
fn line_of(alloc: Global, start: &[u8], pairs: usize, end: &[u8]) -> Result<Vec<u8>, AllocError> {
    let mut out = spelled(alloc, start)?;
    for i in 0..pairs {
        out.extend_from_slice(format!(in alloc; ",a:b{i}")?.as_bytes())?;
    }
    out.extend_from_slice(end)?;
    out.truncate(ROOM);
    Ok(out)
}

// `many ANSWER BUTTONS AXES PAIRS START END`: the number of entries; the lists are the codes from 1 on, so many each.
pub fn many_case<R: Print + AllocGlobal>(rt: &R, args: &[u8]) -> io::Result<bool> {
    let lists = rest(args);
    let more = rest(rest(lists));
    let tail = rest(more);
    let line = line_of(rt.alloc(), word(tail), number(word(more)), rest(tail))?;
    let list = numbered();
    let buttons = first(&list, number(word(lists)));
    let axes = first(&list, number(word(rest(lists))));
    let reading = parse_sdl_mapping(&line, buttons, axes);
    let count = reading.map.count;
    let out = match reading.answer {
        Ok(()) => format!(in rt.alloc(); "{count}")?,
        Err(e) => format!(in rt.alloc(); "{};{count}", refused(e.refusal()))?,
    };
    is(rt, out.as_bytes(), word(args))
}

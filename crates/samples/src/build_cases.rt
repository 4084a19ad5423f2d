// Cases of build.
use crate::codes::codes_of;
use crate::line_cases::Reading;
use crate::slot_cases::slots_of;
use crate::spelled::{ROOM, copied, is, refused, spelled, unhexed};
use line::reading::parse_sdl_mapping;
use map::from_data::{Built, from_data};
use parts::cuts::{first, past, rest, word};
use parts::numbers::{number, unhex, uuid_or};
use spelling::MapText;
use std::alloc::{AllocError, Global};
use std::io;
use text::uuid::Uuid;

// The output is the end of so many dots: build writes into a lent buffer, which it never grows.
const DOTS: usize = 16384;

// A longer line is told by its length.
const LINE_MAX: usize = 400;

// The byte that two digits spell, as a byte of a name.
fn first_byte(s: &[u8]) -> u8 {
    let mut space = [0u8; 1];
    unhex(s, &mut space);
    space[0]
}

// The name that a case spells: as it stands; `*8192 6E` is 8192 times the byte 6E; `\2CFF` is those bytes.
fn name_of(alloc: Global, s: &[u8]) -> Result<Vec<u8>, AllocError> {
    match s {
        [b'*', count @ ..] => vec![in alloc; first_byte(rest(count)); number(word(count)).min(
            ROOM
        )],
        [b'\\', digits @ ..] => unhexed(alloc, digits),
        _ => copied(alloc, s),
    }
}

// What an accepted build wrote: the line and the map, and the reading of the line where it is not the built map.
fn line_text(
    alloc: Global,
    built: &Built,
    line: &[u8],
    buttons: &[u32],
    axes: &[u32],
) -> Result<Vec<u8>, AllocError> {
    let mut out = if line.len() <= LINE_MAX {
        copied(alloc, line)?
    } else {
        copied(alloc, format!(in alloc; "#{}", line.len())?.as_bytes())?
    };
    let map = format!(in alloc; "{}", MapText(&built.map))?;
    out.push(b'|')?;
    out.extend_from_slice(map.as_bytes())?;
    let again = format!(in alloc; "{}", Reading(&parse_sdl_mapping(line, buttons, axes)))?;
    if again.as_str() != map.as_str() {
        out.extend_from_slice(b"|read as:")?;
        out.extend_from_slice(again.as_bytes())?;
    }
    Ok(out)
}

// What build answered, and whether it left what stands after the line as it was.
fn built_text(
    alloc: Global,
    built: &Built,
    out: &[u8],
    buttons: &[u32],
    axes: &[u32],
) -> Result<Vec<u8>, AllocError> {
    let mut said = match built.answer {
        Ok(()) => { line_text(alloc, built, first(out, built.len), buttons, axes)? }
        Err(e) => {
            let map = MapText(&built.map);
            copied(
                alloc,
                format!(in alloc; "{};{map}", refused(e.refusal()))?.as_bytes(),
            )?
        }
    };
    if past(out, built.len).iter().any(|b| *b != b'.') {
        said.extend_from_slice(b"|touched")?;
    }
    Ok(said)
}

// `build ANSWER UUID SLOTS BUTTONS AXES ROOM NAME`: the line, or `#` and its length where that is over 400, and the
// map.
pub fn build_case<R: Print + AllocGlobal>(rt: &R, args: &[u8]) -> io::Result<bool> {
    let more = rest(args);
    let lists = rest(rest(more));
    let output = rest(rest(lists));
    let data = slots_of(word(rest(more)));
    let buttons = codes_of(rt.alloc(), word(lists))?;
    let axes = codes_of(rt.alloc(), word(rest(lists)))?;
    let name = name_of(rt.alloc(), rest(output))?;
    let uuid = uuid_or(word(more), Uuid::NIL);
    let mut space = [b'.'; DOTS];
    let from = DOTS - number(word(output)) % (DOTS + 1);
    let out = &mut space[from..];
    let built = from_data(data, &buttons, &axes, &name, uuid, out);
    let answer = built_text(rt.alloc(), &built, out, &buttons, &axes)?;
    is(rt, &answer, &spelled(rt.alloc(), word(args))?)
}

// Cases of the walker and of reading, with the buttons 10130 to 1014F and the axes 30000 to 3000F.
// A token is written `U<digits>`, `N<start>+<len>`, `P<start>+<len>`, or `A<axis>`, `B<button>`, `H<hat>.<direction>` with
// `><element>`, the input and the output range, `F`, `U` or `L`, and `~` where inverted; a refusal `!<number>@<place>`; the
// end `E`. Each has `/` after it.
use crate::same;
use line::mapping::Mapping;
use line::reading::parse_sdl_mapping;
use map::default::default;
use parts::cuts::{count_of, first, rest, word};
use parts::numbers::{AXIS_CODES, BUTTON_CODES, number};
use spelling::{Data, MapText, Refused, Walk};
use std::io;

// `walk ANSWERS LINE`: a step for each slash.
pub fn walk_case<R: Print + AllocGlobal>(rt: &R, args: &[u8]) -> io::Result<bool> {
    let walk = Walk {
        data: Data::Recorded,
        line: rest(args),
        calls: count_of(word(args), b'/'),
    };
    let out = format!(in rt.alloc(); "{walk}")?;
    same(rt, out.as_bytes(), word(args))
}

// What stands after a map: `d` after a default map.
pub fn flag(map: &Mapping) -> &'static str {
    if map.is_default { "d" } else { "" }
}

// `read ANSWER LINE`
pub fn read_case<R: Print + AllocGlobal>(rt: &R, args: &[u8]) -> io::Result<bool> {
    let read = parse_sdl_mapping(rest(args), &BUTTON_CODES, &AXIS_CODES);
    let out = match read.answer {
        Ok(()) => format!(in rt.alloc(); "{}{}", MapText(&read.map), flag(&read.map))?,
        Err(e) => format!(in rt.alloc(); "{}", Refused(Data::Recorded, e.refusal()))?,
    };
    same(rt, out.as_bytes(), word(args))
}

// `default ANSWER TAKE`: the default map of the first so many buttons, and of all axes.
pub fn default_case<R: Print + AllocGlobal>(rt: &R, args: &[u8]) -> io::Result<bool> {
    let made = default(first(&BUTTON_CODES, number(rest(args))), &AXIS_CODES);
    let out = format!(in rt.alloc(); "{}{}", MapText(&made.map), flag(&made.map))?;
    same(rt, out.as_bytes(), word(args))
}

// Cases of the pad layer: what a raw value gives. It is `pressed`, `released` or an axis value, as `-5`; an answer is a
// value, or `-` where there is none.
use crate::element_cases::{element, odd_map, ranges};
use crate::spelled::{OrDash, is};
use line::ev::Code;
use line::mapping::Entry;
use pad::events::{Event, Raw};
use pad::value::{entry_value, event};
use parts::cuts::{rest, word};
use parts::numbers::{number, short};
use spelling::Element;
use std::{fmt, io};

// A value is taken modulo 65536; a word that is none is -1, the empty one the least.
fn raw_of(s: &[u8]) -> Raw {
    match s {
        b"pressed" => Raw::ButtonPressed,
        b"released" => Raw::ButtonReleased,
        [] => Raw::AxisValueChanged(i16::MIN),
        [b'-', digits @ ..] => Raw::AxisValueChanged(short(digits).cast_signed().wrapping_neg()),
        _ => Raw::AxisValueChanged(short(s).cast_signed()),
    }
}

// `value ELEMENT RANGES RAW ANSWER`: what a raw value gives by an entry.
pub fn value_case<R: Print + AllocGlobal>(rt: &R, args: &[u8]) -> io::Result<bool> {
    let halves = rest(args);
    let raw = rest(halves);
    let e = Entry::ranged(Code(5), element(word(args)), ranges(word(halves)));
    let out = format!(in rt.alloc(); "{}", OrDash(entry_value(e, raw_of(word(raw)))))?;
    is(rt, out.as_bytes(), rest(raw))
}

// `b1=-5`: an element and its value.
#[derive(Clone, Copy)]
struct EventText(Event);

impl fmt::Display for EventText {
    fn fmt<W: fmt::Write>(&self, f: &mut fmt::Formatter<W>) -> fmt::Result {
        write!(f, "{}={}", Element(self.0.element), self.0.value)
    }
}

// `event COUNT CODE RAW ANSWER`: the element that a raw value of a code gives a value in the odd map, and the value.
pub fn event_case<R: Print + AllocGlobal>(rt: &R, args: &[u8]) -> io::Result<bool> {
    let code = rest(args);
    let raw = rest(code);
    let map = odd_map(number(word(args)));
    let told = event(&map, Code(short(word(code)) as u32), raw_of(word(raw)));
    let out = format!(in rt.alloc(); "{}", OrDash(told.map(|e| EventText(e))))?;
    is(rt, out.as_bytes(), rest(raw))
}

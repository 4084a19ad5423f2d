// Cases of the slots and of the default map.
use crate::codes::{codes_of, hex_number};
use crate::element_cases::element;
use crate::spelled::{Hex, OrDash, is, refused};
use line::ev::{AxisOrBtn, Code};
use map::default::default;
use map::mapping_data::MappingData;
use parts::cuts::{after, before, rest, word};
use spelling::MapText;
use std::fmt::Write;
use std::io;

// Fills the slot of an element. This call and the next two differ in what they call for each kind: a closure for each would
// be as long as they are.
fn inserted(slots: &mut MappingData, code: Code, to: AxisOrBtn) -> Option<Code> {
    match to {
        AxisOrBtn::Axis(a) => slots.insert_axis(code, a),
        AxisOrBtn::Btn(b) => slots.insert_btn(code, b),
    }
}

fn removed(slots: &mut MappingData, to: AxisOrBtn) -> Option<Code> {
    match to {
        AxisOrBtn::Axis(a) => slots.remove_axis(a),
        AxisOrBtn::Btn(b) => slots.remove_button(b),
    }
}

fn asked(slots: &MappingData, of: AxisOrBtn) -> Option<Code> {
    match of {
        AxisOrBtn::Axis(a) => slots.axis(a),
        AxisOrBtn::Btn(b) => slots.button(b),
    }
}

// One call: `b1=10131` inserts, `-b1` removes, `?b1` asks. The former code is what an insert or a remove hands back.
fn called(slots: &mut MappingData, call: &[u8]) -> Option<Code> {
    match call {
        [] => None,
        [b'-', e @ ..] => removed(slots, element(e)),
        [b'?', e @ ..] => asked(slots, element(e)),
        _ => {
            let code = Code(hex_number(after(call, b'=')));
            inserted(slots, code, element(before(call, b'=')))
        }
    }
}

// `slots ANSWERS CALLS`: what each call hands back, a code or `-`, with a comma after each.
pub fn slots_case<R: Print + AllocGlobal>(rt: &R, args: &[u8]) -> io::Result<bool> {
    let mut slots = MappingData::new();
    let mut said = String::new(rt.alloc());
    for call in rest(args).split_inclusive(|b| *b == b',') {
        let former = called(&mut slots, before(call, b','));
        write!(said, "{},", OrDash(former.map(|code| Hex(code))))?;
    }
    is(rt, said.as_bytes(), word(args))
}

// The slots after the calls of a word; `-` fills none. Each test program spells a slot in its own way: one function for
// all would be handed the filling of a slot, and be no shorter than these lines.
pub fn slots_of(s: &[u8]) -> MappingData {
    let mut slots = MappingData::new();
    for call in s.split_inclusive(|b| *b == b',') {
        called(&mut slots, before(call, b','));
    }
    slots
}

// `default ANSWER BUTTONS AXES`: the map, with `d` before it where the default flag is on.
pub fn default_case<R: Print + AllocGlobal>(rt: &R, args: &[u8]) -> io::Result<bool> {
    let buttons = codes_of(rt.alloc(), word(rest(args)))?;
    let axes = codes_of(rt.alloc(), rest(rest(args)))?;
    let made = default(&buttons, &axes);
    let mut out = String::new(rt.alloc());
    if let Err(e) = made.answer {
        write!(out, "{};", refused(e.refusal()))?;
    }
    let flag = if made.map.is_default { "d" } else { "" };
    write!(out, "{flag}{}", MapText(&made.map))?;
    is(rt, out.as_bytes(), word(args))
}

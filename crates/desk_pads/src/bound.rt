// Which elements are bound: by the pairs of a line, or by slots. What a line in place of another no longer binds, and
// which code is given to two elements.
use crate::elements::{ELEMENTS, element_at, is_left_out, place_of, put_element};
use crate::pairs::tokens_of;
use desk::console::Console;
use desk::say::{OUT, say};
use line::ev::{AxisOrBtn, Code};
use line::parser::Token;
use map::mapping_data::MappingData;

// The element that a token of a line binds.
fn element_of(token: Token) -> Option<AxisOrBtn> {
    match token {
        Token::AxisMapping { to, .. }
        | Token::ButtonMapping { to, .. }
        | Token::HatMapping { to, .. } => Some(to),
        _ => None,
    }
}

// Whether each element is bound by the pairs of a line, in the elements' order; what the walker refuses binds none.
fn bound_by(line: &[u8]) -> [bool; ELEMENTS] {
    let mut bound = [false; ELEMENTS];
    for (_, answer) in tokens_of(line) {
        if let Some(element) = answer.ok().and_then(|token| element_of(token)) {
            bound[place_of(element)] = true;
        }
    }
    bound
}

// Names the elements that one line binds, and the line in its place does not.
pub fn say_lost(console: &Console, former: &[u8], line: &[u8]) {
    let had = bound_by(former);
    let has = bound_by(line);
    let mut named = false;
    for (k, (had, has)) in had.iter().zip(&has).enumerate() {
        let element = element_at(k);
        if *had && !*has && !is_left_out(element) {
            let start = if named {
                b", ".as_slice()
            } else {
                b"no longer bound: ".as_slice()
            };
            say(console, start);
            put_element(console, OUT, element);
            named = true;
        }
    }
    if named {
        say(console, b"\n");
    }
}

fn slot_code(slots: &MappingData, k: usize) -> Option<Code> {
    match element_at(k) {
        AxisOrBtn::Btn(b) => slots.button(b),
        AxisOrBtn::Axis(a) => slots.axis(a),
    }
}

// The first element from `from` on that has a code.
pub fn slot_with(slots: &MappingData, from: usize, code: Code) -> Option<usize> {
    (from..ELEMENTS).find(|k| slot_code(slots, *k) == Some(code))
}

// An element further on that has the code of the one at `k`.
fn twin(slots: &MappingData, k: usize) -> Option<usize> {
    slot_with(slots, k.wrapping_add(1), slot_code(slots, k)?)
}

// Two elements with one code, if there are such.
pub fn twins(slots: &MappingData) -> Option<(usize, usize)> {
    (0..ELEMENTS).find_map(|k| Some((k, twin(slots, k)?)))
}

// The slots that arguments fill, as `a=10130`.
use crate::elements::{element_named, put_nearest_element};
use desk::arguments::is_party;
use desk::codes::{Kind, Typed};
use desk::console::{Console, argument, argument_count};
use desk::fields::{after, before};
use desk::files::arg_space;
use desk::say::{ERR, complain};
use desk::shown::complain_shown;
use line::ev::{AxisOrBtn, Code};
use map::mapping_data::MappingData;

// The slots, and how many arguments filled one.
#[derive(Clone, Copy)]
pub struct Slots {
    pub filled: MappingData,
    pub given: usize,
}

// The kind of an element's own list.
pub fn kind_of(e: AxisOrBtn) -> Kind {
    if e.is_button() {
        Kind::Button
    } else {
        Kind::Axis
    }
}

// The code that an argument gives, if it is one.
fn code_in<'a>(console: &Console, pair: &'a [u8]) -> Option<Typed<'a>> {
    let typed = Typed::parse(after(pair, b'='));
    if typed.is_none() {
        complain_shown(console, pair);
        complain(
            console,
            b": not of the form ELEMENT=CODE; a code has 1 to 8 hexadecimal digits\n",
        );
    }
    typed
}

// The element that an argument names, if it names one.
fn element_in(console: &Console, pair: &[u8]) -> Option<AxisOrBtn> {
    let key = before(pair, b'=');
    let element = element_named(key);
    if element.is_none() {
        complain_shown(console, pair);
        complain(console, b": no element has this name");
        put_nearest_element(console, ERR, key);
        complain(console, b"\n");
    }
    element
}

// The code and the element of `a=10130`; what is not understood is said. A code is of one of the two kinds; whether it is
// in the element's list is the library's to say.
fn pair_in(console: &Console, pair: &[u8]) -> Option<(Code, AxisOrBtn)> {
    let typed = code_in(console, pair)?;
    let element = element_in(console, pair)?;
    if Kind::of_code(typed.code).is_none() {
        typed.complain_kind(console, kind_of(element));
        return None;
    }
    Some((Code(typed.code), element))
}

// Whether an argument fills no slot: a list of codes, a party, or `anyway`.
fn is_no_pair(arg: &[u8]) -> bool {
    matches!(before(arg, b'='), b"buttons" | b"axes") || is_party(arg) || matches!(arg, b"anyway")
}

impl Slots {
    // The slot of an element filled; whether it was empty.
    fn fill(&mut self, code: Code, element: AxisOrBtn) -> bool {
        let former = match element {
            AxisOrBtn::Btn(b) => self.filled.insert_btn(code, b),
            AxisOrBtn::Axis(a) => self.filled.insert_axis(code, a),
        };
        self.given = self.given.wrapping_add(1);
        former.is_none()
    }

    // The slot that argument `i` fills, if it fills one; whether it was understood.
    fn take(&mut self, console: &Console, i: usize) -> bool {
        let mut space = arg_space();
        let arg = argument(console, i, &mut space);
        if is_no_pair(arg) {
            return true;
        }
        let Some((code, element)) = pair_in(console, arg) else {
            return false;
        };
        let is_first = self.fill(code, element);
        if !is_first {
            complain_shown(console, arg);
            complain(console, b": the element is given twice\n");
        }
        is_first
    }
}

// The slots that the arguments from `from` on fill; None where one is not understood, which is said. It goes on behind
// such an argument, so that each of them is said: a bool, and not `?`.
pub fn slots_named(console: &Console, from: usize) -> Option<Slots> {
    let mut slots = Slots {
        filled: MappingData::new(),
        given: 0,
    };
    let mut all = true;
    for i in from..argument_count(console) {
        if !slots.take(console, i) {
            all = false;
        }
    }
    all.then_some(slots)
}

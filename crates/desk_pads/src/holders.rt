// What holds an element at its value: a code of the pad, or the pad beside it.
use crate::playing::{Play, beside, say_which};
use desk::console::Console;
use desk::fields::first;
use desk::say::{OUT, put_value, say};
use line::ev::{AxisOrBtn, Code};
use line::mapping::CODE_UNIT;
use pad::events::Raw;
use pad::two::Which;
use pad::value::event;

// The number of the axis value 0 below the unit of a code.
const AXIS_ZERO: i64 = 32770;

// The raw value of a held code, by what its number has below that unit: 0 released, 1 pressed, from 2 on an axis value,
// counted from the least one. The crate pad reads the same number by `held_of`, for itself: a public function there,
// with a promise and wrong programs of its own, would not be plainer than this.
fn raw_of(y: u32) -> Raw {
    match y {
        0 => Raw::ButtonReleased,
        1 => Raw::ButtonPressed,
        _ => i16::try_from(i64::from(y) - AXIS_ZERO).map_or(
            Raw::ButtonReleased,
            |v| Raw::AxisValueChanged(v),
        ),
    }
}

// An element of a player's pads and its value, as an event of one of the pads finds it.
#[derive(Clone, Copy)]
pub struct Found<'a> {
    pub play: &'a Play,
    pub which: Which,
    pub element: AxisOrBtn,
    pub value: i16,
}

impl Found<'_> {
    // The code of a held one that gives the element its value.
    fn giver(self, held: u64) -> Option<u32> {
        let code = (held / CODE_UNIT) as u32;
        let map = self.play.seat(self.which).map;
        let raw = raw_of((held % CODE_UNIT) as u32);
        let told = event(&map, Code(code), raw)?;
        (told.element == self.element && told.value == self.value).then_some(code)
    }

    // The code that the element has its value from: of those that give it, the smallest.
    fn holder(self) -> Option<u32> {
        let pad = self.play.pad(self.which);
        first(&pad.held, pad.count)
            .iter()
            .filter_map(|held| self.giver(*held))
            .min()
    }

    // Whether the pad itself has the element at that value.
    fn is_own(self) -> bool {
        self.play.pad(self.which).value(self.element) == self.value
    }

    // `code 30005`, or `pad 2`
    fn say_holder(self, console: &Console) {
        if !self.is_own() {
            say_which(console, beside(self.which));
            return;
        }
        if let Some(code) = self.holder() {
            put_value(console, OUT, format_args!("code {code:x}"));
        }
    }

    // `, held by code 30005`, `, held by pad 2`: nothing for an element at 0.
    pub fn say_held_by(self, console: &Console) {
        if self.value != 0 {
            say(console, b", held by ");
            self.say_holder(console);
        }
    }

    // Why the element does not take a value from a code, where it has another one.
    pub fn say_reason(self, console: &Console, given: i16) {
        self.say_holder(console);
        if given.unsigned_abs() < self.value.unsigned_abs() {
            say(console, b" holds it farther from zero");
        } else if self.is_own() {
            say(
                console,
                b" holds it as far from zero, and is the smaller code",
            );
        } else {
            say(console, b" holds it as far from zero, and is the first pad");
        }
    }
}

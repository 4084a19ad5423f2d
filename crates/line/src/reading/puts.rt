// What a token puts into the map: entries and hat flags, or the name.
ghost use Rattle.std.specs.Prelude.{◌≡◌};
ghost use Rattle.line.specs.Puts.{listed, hat_codes, dpad_axis, beside_of, dpad_puts, hat_puts, puts_of};

use crate::ev::{Axis, AxisOrBtn, Button, Code};
use crate::mapping::Entry;
use crate::parser::{Ranges, Token};

// The unknown direction is a case beside the others and no error of a Result: a reader looks through the cases once, and
// with a Result it would do so in two steps for the same answer.
#[derive(Clone, Copy)]
pub enum Puts {
    Nothing,
    Name {
        start: usize,
        len: usize,
    },
    One {
        entry: Entry,
        flags: u8,
    },
    Two {
        first: Entry,
        second: Entry,
        flags: u8,
    },
    UnknownHatDirection,
}

// The codes that a direction of hat 0 stands for, and its flag.
#[derive(Clone, Copy)]
pub struct HatCodes {
    pub axis: Code,
    pub button: Code,
    pub flag: u8,
}

// What a token puts, after which the line goes on at `after`.
#[tactic(auto, unfolding(crate::specs::Puts::puts_of))]
pub fn puts_of(token: Token, after: usize, buttons: &[u32], axes: &[u32]) -> Puts
    ensures { result ≡ puts_of token after buttons.now axes.now }
{
    match token {
        Token::AxisMapping { from, to, ranges } => listed_put(axes, from, to, ranges),
        Token::ButtonMapping { from, to, ranges } => listed_put(buttons, from, to, ranges),
        Token::HatMapping {
            hat,
            direction,
            to,
            ranges,
        } => hat_puts(hat, direction, to, ranges),
        Token::Uuid(_) => Puts::Name {
            start: after,
            len: 0,
        },
        Token::Platform { .. } => Puts::Nothing,
        Token::Name { start, len } => Puts::Name { start, len },
    }
}

// The put of the code at `n` of a list, if there is one.
#[tactic(auto, unfolding(crate::specs::Puts::listed))]
fn listed_put(codes: &[u32], n: u16, to: AxisOrBtn, ranges: Ranges) -> Puts
    ensures { result ≡ listed codes.now n to ranges }
{
    match codes.get(n as usize) {
        Some(code) => Puts::One {
            entry: Entry::ranged(Code(*code), to, ranges),
            flags: 0,
        },
        None => Puts::Nothing,
    }
}

#[tactic(auto, unfolding(crate::specs::Puts::hat_puts))]
fn hat_puts(hat: u16, direction: u16, to: AxisOrBtn, ranges: Ranges) -> Puts
    ensures { result ≡ hat_puts hat direction to ranges }
{
    if hat != 0 || direction == 0 {
        return Puts::Nothing;
    }
    match hat_codes(direction) {
        Some(codes) => dpad_puts(codes.axis, codes.button, to, ranges, codes.flag),
        None => Puts::UnknownHatDirection,
    }
}

#[tactic(auto, unfolding(crate::specs::Puts::hat_codes))]
fn hat_codes(direction: u16) -> Option<HatCodes>
    ensures { result ≡ hat_codes direction }
{
    let (axis, button, flag) = match direction {
        1 => (Code::AXIS_DPADY, Code::BTN_DPAD_UP, 1),
        4 => (Code::AXIS_DPADY, Code::BTN_DPAD_DOWN, 4),
        2 => (Code::AXIS_DPADX, Code::BTN_DPAD_RIGHT, 2),
        8 => (Code::AXIS_DPADX, Code::BTN_DPAD_LEFT, 8),
        _ => return None,
    };
    Some(HatCodes { axis, button, flag })
}

fn dpad_puts(axis: Code, button: Code, to: AxisOrBtn, ranges: Ranges, flags: u8) -> Puts
    ensures { result ≡ dpad_puts axis button to ranges flags }
{
    match to {
        AxisOrBtn::Btn(b) => beside_puts(
            dpad_axis(b),
            axis,
            Entry::ranged(button, to, ranges),
            flags,
        ),
        AxisOrBtn::Axis(_) => Puts::One {
            entry: Entry::ranged(axis, to, ranges),
            flags,
        },
    }
}

// DPadX beside DPad left and right, DPadY beside up and down.
#[tactic(auto, unfolding(crate::specs::Puts::dpad_axis))]
fn dpad_axis(button: Button) -> Option<Axis>
    ensures { result ≡ dpad_axis button }
{
    match button {
        Button::DPadLeft | Button::DPadRight => Some(Axis::DPadX),
        Button::DPadUp | Button::DPadDown => Some(Axis::DPadY),
        _ => None,
    }
}

// The axis code to the DPad axis, then the entry.
fn beside_puts(beside: Option<Axis>, axis: Code, put: Entry, flags: u8) -> Puts
    ensures { result ≡ beside_of beside axis put flags }
{
    match beside {
        Some(a) => Puts::Two {
            first: Entry::new(axis, AxisOrBtn::Axis(a)),
            second: put,
            flags,
        },
        None => Puts::One { entry: put, flags },
    }
}

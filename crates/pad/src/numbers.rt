// Values as unsigned numbers: counted from the least one, -32768.
ghost use Rattle.std.specs.Prelude.{◌≡◌, ◌<◌, ◌/◌};
ghost use Rattle.pad.specs.ValueClaims.{RawWithin};
ghost use Rattle.line.specs.Numbers.{code_unit};
ghost use Rattle.pad.specs.States.{raw_number, raw_in, held_number, held_in};
ghost use Rattle.pad.specs.Inner.{shifted, unshifted};

use crate::events::{Held, Raw};
use line::ev::Code;
use line::mapping::CODE_UNIT;

// A value counted from the least one.
pub fn biased(v: i16) -> u16
    ensures { result ≡ shifted v }
{
    (v as i32 + 32768) as u16
}

// And back.
pub fn unbiased(x: u16) -> i16
    ensures { result ≡ unshifted x }
{
    (x as i32 - 32768) as i16
}

// The raw value that a number is: 0 released, 1 pressed, from 2 on an axis value.
fn raw_of(y: u32) -> Raw
    ensures { result ≡ raw_in y }
{
    match y {
        0 => Raw::ButtonReleased,
        1 => Raw::ButtonPressed,
        _ => Raw::AxisValueChanged(unbiased(((y - 2) % 65536) as u16)),
    }
}

// A raw value as a number.
fn raw_number(raw: Raw) -> u32
    ensures { (result ≡ raw_number raw) × (result < 65538) × RawWithin raw }
{
    match raw {
        Raw::ButtonReleased => 0,
        Raw::ButtonPressed => 1,
        Raw::AxisValueChanged(v) => biased(v) as u32 + 2,
    }
}

// The held code that a number is.
#[tactic(auto, unfolding(crate::specs::States::held_in))]
pub fn held_of(x: u64) -> Held
    ensures { result ≡ held_in x }
{
    let raw = raw_of((x % CODE_UNIT) as u32);
    Held {
        code: Code((x / CODE_UNIT) as u32),
        raw,
    }
}

// A code with its last raw value as a number.
pub fn held_number(code: Code, raw: Raw) -> u64
    ensures { (result ≡ held_number code raw) × (result / code_unit ≡ code.0) × RawWithin raw }
{
    code.0 as u64 * CODE_UNIT + raw_number(raw) as u64
}

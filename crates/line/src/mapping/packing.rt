// The parts of an entry as parts of its number, and back. Halves and kinds are digits of that number, by which a C program
// keeps the entries of a pad's map.
ghost use Rattle.std.specs.Prelude.{◌≡◌, ◌+◌, ◌*◌, ◌<◌};
ghost use Rattle.line.specs.Numbers.{code_unit, shape_unit, half_number, ranges_number, half_in, ranges_in};
ghost use Rattle.line.specs.Numbers.{element_of_kind, shaped_entry, entry_in};

use crate::ev::{Axis, AxisOrBtn, Button};
use crate::mapping::CODE_UNIT;
use crate::parser::{AxisRange, Ranges};

// What the shape counts in the number of an entry: twice its ranges, and 1 for an axis.
pub const SHAPE_UNIT: u64 = 65536;

// A half as a number: full is 0. C's structs of tokens and ranges number the halves otherwise, the lower one is 0 there:
// so those have functions of their own.
fn half_number(r: AxisRange) -> u16
    ensures { (half_in result ≡ r) × (result < 4) × (result ≡ half_number r) }
{
    match r {
        AxisRange::Full => 0,
        AxisRange::UpperHalf => 1,
        AxisRange::LowerHalf => 2,
    }
}

// The half that a number is.
fn half_of(k: u64) -> AxisRange
    ensures { result ≡ half_in k }
{
    match k {
        0 => AxisRange::Full,
        1 => AxisRange::UpperHalf,
        _ => AxisRange::LowerHalf,
    }
}

// The ranges as a number: the halves of input and output, and whether it is inverted.
pub fn ranges_number(r: Ranges) -> u16
    ensures { (ranges_in result ≡ r) × (result < 32) × (result ≡ ranges_number r) }
{
    let input = r.input;
    let output = r.output;
    let halves = half_number(input) + half_number(output) * 4;
    if r.inverted {
        return halves + 16;
    }
    halves
}

// The ranges that a number is.
pub fn ranges_of(k: u64) -> Ranges
    ensures { result ≡ ranges_in k }
{
    let input = half_of(k % 4);
    let output = half_of(k / 4 % 4);
    Ranges {
        input,
        output,
        inverted: k / 16 % 2 == 1,
    }
}

pub fn pack(code: u32, shape: u16, number: u16) -> u64
    ensures { (result ≡ code * code_unit + shape * shape_unit + number) × (entry_in result ≡ shaped_entry code shape number) }
{
    code as u64 * CODE_UNIT + shape as u64 * SHAPE_UNIT + number as u64
}

// The element of a kind, 0 for a button and 1 for an axis.
pub fn element_of(kind: u64, number: u16) -> AxisOrBtn
    ensures { result ≡ element_of_kind kind number }
{
    match kind {
        0 => AxisOrBtn::Btn(Button(number)),
        _ => AxisOrBtn::Axis(Axis(number)),
    }
}

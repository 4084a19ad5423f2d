// The calls of the line layer.
ghost use Rattle.std.specs.Prelude.{◌≡◌};
ghost use Rattle.line.specs.Elements.{to_nec_of, is_dpad_of, is_stick_of, is_stick_axis_of, second_axis_of, is_button_of, same_element};
ghost use Rattle.exports.specs.Flat.{element_of, button_in, axis_in, flat_code, flat_axis};

use crate::flat::{FlatElement, code_number};
use line::ev::{Axis, AxisOrBtn, Button, Code};

// A code, if there is one: C's struct, as FlatSlot is, whose flag has another name there.
#[repr(C)]
#[derive(Clone, Copy)]
pub struct FlatCode {
    pub found: bool,
    pub code: u32,
}

// An axis, if there is one.
#[repr(C)]
#[derive(Clone, Copy)]
pub struct FlatAxis {
    pub found: bool,
    pub number: u16,
}

impl From<Option<Code>> for FlatCode {
    ghost from_gives = { λ c f. f ≡ flat_code c };

    fn from(code: Option<Code>) -> FlatCode {
        FlatCode {
            found: code.is_some(),
            code: code_number(code),
        }
    }
}

impl From<Option<Axis>> for FlatAxis {
    ghost from_gives = { λ a f. f ≡ flat_axis a };

    fn from(axis: Option<Axis>) -> FlatAxis {
        FlatAxis {
            found: axis.is_some(),
            number: axis.map_or(0, |a| a.0),
        }
    }
}

#[unsafe(no_mangle)]
pub extern "C" fn raspteal_button_to_nec(button: u16) -> FlatCode
    ensures { result ≡ flat_code (to_nec_of (button_in button)) }
{
    Button(button).to_nec().into()
}

#[unsafe(no_mangle)]
pub extern "C" fn raspteal_button_is_stick(button: u16) -> bool
    ensures { result ≡ is_stick_of (button_in button) }
{
    Button(button).is_stick()
}

#[unsafe(no_mangle)]
pub extern "C" fn raspteal_button_is_dpad(button: u16) -> bool
    ensures { result ≡ is_dpad_of (button_in button) }
{
    Button(button).is_dpad()
}

#[unsafe(no_mangle)]
pub extern "C" fn raspteal_axis_is_stick(axis: u16) -> bool
    ensures { result ≡ is_stick_axis_of (axis_in axis) }
{
    Axis(axis).is_stick()
}

#[unsafe(no_mangle)]
pub extern "C" fn raspteal_axis_second_axis(axis: u16) -> FlatAxis
    ensures { result ≡ flat_axis (second_axis_of (axis_in axis)) }
{
    Axis(axis).second_axis().into()
}

#[unsafe(no_mangle)]
pub extern "C" fn raspteal_element_is_button(e: FlatElement) -> bool
    ensures { result ≡ is_button_of (element_of e) }
{
    AxisOrBtn::from(e).is_button()
}

#[unsafe(no_mangle)]
pub extern "C" fn raspteal_element_eq(a: FlatElement, b: FlatElement) -> bool
    ensures { result ≡ same_element (element_of a) (element_of b) }
{
    AxisOrBtn::from(a) == AxisOrBtn::from(b)
}

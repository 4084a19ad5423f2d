// The buttons of key codes: one table, by which the default map goes too.
mod table;

ghost use Rattle.std.specs.Prelude.{◌≡◌};
ghost use Rattle.map.specs.Keys.{key_table, key_button};

use crate::keys::table::BUTTONS;
use line::ev::{Button, Code};

// The first key code of the table, and how many it has.
pub const KEY_FIRST: u32 = 0x10100;

pub const KEYS: usize = 512;

// The number at place i is that of the key code 10100 + i. 0 is that of Unknown, which no code has: request P7 asks for
// "each the button number or 0". repr(C): C programs hold the same struct.
#[repr(C)]
#[derive(Clone, Copy)]
pub struct KeyTable {
    pub buttons: [u8; KEYS],
}

// The table: the button number of each key code from 10100 to 102ff, or 0.
pub fn key_table() -> KeyTable
    ensures { result ≡ key_table }
{
    KeyTable { buttons: BUTTONS }
}

// The button of a key code, read from the table; Unknown, whose number is 0, where it has none, and outside the table.
pub fn key_button(code: Code) -> Button
    ensures { result ≡ key_button code }
{
    let Some(i) = code.0.checked_sub(KEY_FIRST) else {
        return Button::Unknown;
    };
    match BUTTONS.get(i as usize) {
        Some(number) => Button(u16::from(*number)),
        None => Button::Unknown,
    }
}

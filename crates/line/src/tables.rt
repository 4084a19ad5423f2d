// The key names of mapping lines and the elements that they name, searched by key and by element.
ghost use Rattle.std.specs.Prelude.{◌≡◌, ◌≤◌, length, map};
ghost use Rattle.line.specs.Tables.{axes_sdl, ident_max, key_row, element_row, key_element, ident_text};
ghost use Rattle.line.specs.Inner.{NotBefore};

use crate::ev::{Axis, AxisOrBtn, Button};

pub const ROWS: usize = 35;

// The longest name.
pub const IDENT_MAX: usize = 13;

// The names in byte order. Names and elements are two tables, and no table of pairs: document 01 names both, and each
// search goes through one of them.
pub static AXES_SDL: [&[u8]; ROWS] = [
    b"a",
    b"b",
    b"back",
    b"c",
    b"dpdown",
    b"dpleft",
    b"dpright",
    b"dpup",
    b"guide",
    b"leftshoulder",
    b"leftstick",
    b"lefttrigger",
    b"leftx",
    b"lefty",
    b"leftz",
    b"misc1",
    b"misc2",
    b"misc3",
    b"misc4",
    b"misc5",
    b"paddle1",
    b"paddle2",
    b"paddle3",
    b"paddle4",
    b"rightshoulder",
    b"rightstick",
    b"righttrigger",
    b"rightx",
    b"righty",
    b"rightz",
    b"start",
    b"touchpad",
    b"x",
    b"y",
    b"z",
];

// The element of each row.
pub static AXES: [AxisOrBtn; ROWS] = [
    AxisOrBtn::Btn(Button::South),
    AxisOrBtn::Btn(Button::East),
    AxisOrBtn::Btn(Button::Select),
    AxisOrBtn::Btn(Button::C),
    AxisOrBtn::Btn(Button::DPadDown),
    AxisOrBtn::Btn(Button::DPadLeft),
    AxisOrBtn::Btn(Button::DPadRight),
    AxisOrBtn::Btn(Button::DPadUp),
    AxisOrBtn::Btn(Button::Mode),
    AxisOrBtn::Btn(Button::LeftTrigger),
    AxisOrBtn::Btn(Button::LeftThumb),
    AxisOrBtn::Btn(Button::LeftTrigger2),
    AxisOrBtn::Axis(Axis::LeftStickX),
    AxisOrBtn::Axis(Axis::LeftStickY),
    AxisOrBtn::Axis(Axis::LeftZ),
    AxisOrBtn::Btn(Button::Unknown),
    AxisOrBtn::Btn(Button::Unknown),
    AxisOrBtn::Btn(Button::Unknown),
    AxisOrBtn::Btn(Button::Unknown),
    AxisOrBtn::Btn(Button::Unknown),
    AxisOrBtn::Btn(Button::Unknown),
    AxisOrBtn::Btn(Button::Unknown),
    AxisOrBtn::Btn(Button::Unknown),
    AxisOrBtn::Btn(Button::Unknown),
    AxisOrBtn::Btn(Button::RightTrigger),
    AxisOrBtn::Btn(Button::RightThumb),
    AxisOrBtn::Btn(Button::RightTrigger2),
    AxisOrBtn::Axis(Axis::RightStickX),
    AxisOrBtn::Axis(Axis::RightStickY),
    AxisOrBtn::Axis(Axis::RightZ),
    AxisOrBtn::Btn(Button::Start),
    AxisOrBtn::Btn(Button::Unknown),
    AxisOrBtn::Btn(Button::West),
    AxisOrBtn::Btn(Button::North),
    AxisOrBtn::Btn(Button::Z),
];

// The element that `key` names.
#[inline(always)]
pub fn find_element(key: &[u8]) -> Option<AxisOrBtn>
    ensures { result ≡ key_element key.now }
{
    Some(AXES[find_key(&AXES_SDL, key)?])
}

// The name of an element, empty where it has none.
pub fn ident_of(e: AxisOrBtn) -> &'static [u8]
    ensures { (result.now ≡ ident_text e) × (length result.now ≤ ident_max) }
{
    name_of(&AXES_SDL, e)
}

// The first row of an element.
pub fn find_row(e: AxisOrBtn) -> Option<usize>
    ensures { result ≡ element_row e }
{
    AXES.iter().position(|x| *x == e)
}

// The row of `key` in the table of names. Row by row, since that is faster here: most names differ in length, so that a
// key takes 85 instructions, and 268 by `binary_search`, which compares seven names byte by byte.
fn find_key(names: &[&[u8]], key: &[u8]) -> Option<usize>
    requires { map (λ name. name.now) names.now ≡ axes_sdl }
    ensures { result ≡ key_row key.now }
{
    find_from(names, first_row(key), key)
}

// The same from a row on, before which no name is the key.
#[inline(always)]
fn find_from(names: &[&[u8]], first: usize, key: &[u8]) -> Option<usize>
    requires are { map (λ name. name.now) names.now ≡ axes_sdl }
    requires no { NotBefore key.now first }
    requires within { first ≤ length names.now }
    ensures { result ≡ key_row key.now }
{
    let behind = names[first..].iter().position(|name| *name == key)?;
    Some(first + behind)
}

// The row at which the search begins: names in the rows before it begin with a lesser letter than the key.
fn first_row(key: &[u8]) -> usize
    ensures { NotBefore key.now result }
{
    if key.is_empty() || key[0] < b'm' {
        return 0;
    }
    if key[0] < b'r' { 15 } else { 24 }
}

// The name of an element in the table of names, empty where it has none. A match: in a closure of `map_or`, which was
// tried, it is not known that the row lies in the table.
fn name_of<'a>(names: &[&'a [u8]], e: AxisOrBtn) -> &'a [u8]
    requires { map (λ name. name.now) names.now ≡ axes_sdl }
    ensures { (result.now ≡ ident_text e) × (length result.now ≤ ident_max) }
{
    match find_row(e) {
        Some(row) => names[row],
        None => b"",
    }
}

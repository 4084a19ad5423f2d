// The default map of a pad: those of its codes that have a usual meaning.
ghost use Rattle.std.specs.Prelude.{◌≡◌, [], ◌+◌, ◌<◌};
ghost use Rattle.line.specs.Elements.{code_of};
ghost use Rattle.line.specs.Maps.{entry_of, to_map};
ghost use Rattle.line.specs.Tables.{as_button};
ghost use Rattle.map.specs.Keys.{key_count, key_first};
ghost use Rattle.map.specs.Default.{button_rows, put_kept, flagged_map, kept_map};
ghost use Rattle.map.specs.Default.{default_of};
ghost use Rattle.map.specs.Inner.{PutsListed};

use crate::error::MappingError;
use crate::keys::{KEY_FIRST, key_table};
use crate::lists::Codes;
use line::ev::{Axis, AxisOrBtn, Button, Code};
use line::mapping::{Entry, Mapping};

// The codes of axes, each with its usual element.
const AXIS_ROWS: [(Code, AxisOrBtn); 12] = [
    (Code::AXIS_LSTICKX, AxisOrBtn::Axis(Axis::LeftStickX)),
    (Code::AXIS_LSTICKY, AxisOrBtn::Axis(Axis::LeftStickY)),
    (Code::AXIS_LEFTZ, AxisOrBtn::Axis(Axis::LeftZ)),
    (Code::AXIS_RSTICKX, AxisOrBtn::Axis(Axis::RightStickX)),
    (Code::AXIS_RSTICKY, AxisOrBtn::Axis(Axis::RightStickY)),
    (Code::AXIS_RIGHTZ, AxisOrBtn::Axis(Axis::RightZ)),
    (Code::AXIS_DPADX, AxisOrBtn::Axis(Axis::DPadX)),
    (Code::AXIS_DPADY, AxisOrBtn::Axis(Axis::DPadY)),
    (Code::AXIS_LT, AxisOrBtn::Btn(Button::LeftTrigger)),
    (Code::AXIS_RT, AxisOrBtn::Btn(Button::RightTrigger)),
    (Code::AXIS_LT2, AxisOrBtn::Btn(Button::LeftTrigger2)),
    (Code::AXIS_RT2, AxisOrBtn::Btn(Button::RightTrigger2)),
];

// A refused one has the empty map, by document 01: "A refused reading, build, save or `default` returns the empty map".
// A `Result` that holds the map would have none then.
#[derive(Clone, Copy)]
pub struct DefaultMap {
    pub answer: Result<(), MappingError>,
    pub map: Mapping,
}

// The row of a key code's place in the table and of the button's number there.
fn key_row(i: usize, n: u8) -> Entry
    requires { i < key_count }
    ensures { result ≡ entry_of (code_of (key_first + i)) (as_button n) }
{
    Entry::new(Code(KEY_FIRST + i as u32), AxisOrBtn::Btn(Button(n as u16)))
}

// An entry put into a map, which has room, if its code is in its list.
fn put_listed(map: &mut Mapping, codes: Codes, e: Entry)
    ensures { PutsListed codes.entry.buttons.now codes.entry.axes.now e map.old map.new }
{
    if codes.contains(e.code) {
        let _ = map.put(e);
    }
}

// The map of the buttons whose code is in its list, by the table of key codes.
fn kept_buttons(codes: Codes) -> Mapping
    ensures { result ≡ to_map (flagged_map (put_kept codes.entry.buttons.now codes.entry.axes.now [] button_rows)) }
{
    let table = key_table();
    let mut map = Mapping::new();
    map.is_default = true;
    for (i, n) in table.buttons.iter().enumerate() {
        if *n != 0 {
            put_listed(&mut map, codes, key_row(i, *n));
        }
    }
    map
}

// The same with the rows of the axes after them.
fn kept_map(codes: Codes) -> Mapping
    ensures { result ≡ to_map (kept_map codes.entry.buttons.now codes.entry.axes.now) }
{
    let mut map = kept_buttons(codes);
    for (code, element) in AXIS_ROWS {
        put_listed(&mut map, codes, Entry::new(code, element));
    }
    map
}

// The default map: of the 31 codes those in their list, each to its usual element.
pub fn default(buttons: &[u32], axes: &[u32]) -> DefaultMap
    ensures { result ≡ default_of buttons.now axes.now }
{
    let codes = Codes { buttons, axes };
    if codes.fit() {
        DefaultMap {
            answer: Ok(()),
            map: kept_map(codes),
        }
    } else {
        DefaultMap {
            answer: Err(MappingError::ListTooLong),
            map: Mapping::new(),
        }
    }
}

// The calls of the pad layer.
ghost use Rattle.std.specs.Prelude.{◌≡◌};
ghost use Rattle.line.specs.Elements.{code_of};
ghost use Rattle.line.specs.Maps.{held};
ghost use Rattle.pad.specs.Values.{entry_value, event_of};
ghost use Rattle.exports.specs.FlatMaps.{mapping_in, entry_in};
ghost use Rattle.exports.specs.FlatPads.{raw_of, flat_value, flat_emitted};

use crate::flat::FlatElement;
use crate::flat_mapping::{FlatEntry, FlatMapping};
use line::ev::Code;
use pad::events::{Event, Raw};
use pad::value::{entry_value, event};

// The value of an element, if there is one: C's struct, as FlatWritten is.
#[repr(C)]
#[derive(Clone, Copy)]
pub struct FlatValue {
    pub found: bool,
    pub value: i16,
}

// An element's value, if there is one.
#[repr(C)]
#[derive(Clone, Copy)]
pub struct FlatEmitted {
    pub found: bool,
    pub element: FlatElement,
    pub value: i16,
}

// What a pad reports: 1 is a button pressed, 2 the axis value v, another number a button released. Two questions one
// after the other: a match with three answers is a branch, and one that no processor foresees where codes come mixed.
#[tactic(auto, unfolding(crate::specs::FlatPads::raw_of))]
pub fn raw_of(raw: u8, v: i16) -> Raw
    ensures { result ≡ raw_of raw v }
{
    let button = if raw == 1 {
        Raw::ButtonPressed
    } else {
        Raw::ButtonReleased
    };
    if raw == 2 {
        Raw::AxisValueChanged(v)
    } else {
        button
    }
}

impl From<Option<i16>> for FlatValue {
    ghost from_gives = { λ v f. f ≡ flat_value v };

    fn from(value: Option<i16>) -> FlatValue {
        FlatValue {
            found: value.is_some(),
            value: value.unwrap_or(0),
        }
    }
}

impl From<Option<Event>> for FlatEmitted {
    ghost from_gives = { λ e f. f ≡ flat_emitted e };

    fn from(emitted: Option<Event>) -> FlatEmitted {
        match emitted {
            Some(e) => FlatEmitted {
                found: true,
                element: e.element.into(),
                value: e.value,
            },
            None => FlatEmitted {
                found: false,
                element: FlatElement::NONE,
                value: 0,
            },
        }
    }
}

#[unsafe(no_mangle)]
pub extern "C" fn raspteal_entry_value(e: FlatEntry, raw: u8, v: i16) -> FlatValue
    ensures { result ≡ flat_value (entry_value (entry_in e) (raw_of raw v)) }
{
    entry_value(e.into(), raw_of(raw, v)).into()
}

#[unsafe(no_mangle)]
pub extern "C" fn raspteal_mapping_event(
    map: FlatMapping,
    code: u32,
    raw: u8,
    v: i16,
) -> FlatEmitted
    ensures { result ≡ flat_emitted (event_of (held (mapping_in map)) (code_of code) (raw_of raw v)) }
{
    event(&map.into(), Code(code), raw_of(raw, v)).into()
}

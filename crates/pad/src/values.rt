// The values of a pad's elements.
ghost use Rattle.std.specs.Prelude.{◌≡◌, ◌≤◌, length, take};
ghost use Rattle.pad.specs.States.{pad_values, pad_value};

use crate::choice::{all_bests, element_value};
use crate::events::ELEMENTS;
use crate::state::{HELD_MAX, Pad};
use crate::telling::place_of;
use line::ev::AxisOrBtn;
use line::mapping::CODES_MAX;

// The held codes, as numbers. A count over the most is read as the most.
pub fn codes(pad: &Pad) -> &[u64]
    ensures { result.now ≡ take pad.now.count pad.now.held }
{
    &pad.held[..pad.count.min(HELD_MAX)]
}

// The entries of the map, as numbers; their count as that of the codes.
pub fn rows(pad: &Pad) -> &[u64]
    ensures are { result.now ≡ take pad.now.entry_count pad.now.entries }
    ensures few { length result.now ≤ 256 }
{
    &pad.entries[..pad.entry_count.min(CODES_MAX)]
}

// The value of an element; 0 for one that is left out.
pub fn value_of(pad: &Pad, element: AxisOrBtn) -> i16
    ensures { result ≡ pad_value pad.now element }
{
    if place_of(element).is_none() {
        return 0;
    }
    element_value(codes(pad), rows(pad), element)
}

// The values of all elements.
pub fn all_values(pad: &Pad) -> [i16; ELEMENTS]
    ensures { result ≡ pad_values pad.now }
{
    all_bests(codes(pad), rows(pad)).map(|best| best.map_or(0, |best| best.value))
}

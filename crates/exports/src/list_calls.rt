// Look-ups in a map that the caller keeps as two lists of numbers: no map crosses the boundary.
ghost use Rattle.std.specs.Prelude.{◌≡◌, ◌==◌, position};
ghost use Rattle.line.specs.Elements.{code_of};
ghost use Rattle.line.specs.Maps.{map_of};
ghost use Rattle.exports.specs.FlatMaps.{flat_mapped};
ghost use Rattle.exports.specs.FlatLists.{listed_element, listed_entries};

use crate::flat::FlatElement;
use crate::mapping_calls::FlatMapped;

// What the number of an axis counts from in a list of elements.
const AXES_FROM: u32 = 65536;

// The element of the first code of the list that is `code`.
#[unsafe(no_mangle)]
pub extern "C" fn raspteal_lists_map(codes: &[u32], elements: &[u32], code: u32) -> FlatMapped
    ensures { result ≡ flat_mapped (map_of (listed_entries codes.now elements.now) (code_of code)) }
{
    match code_place(codes, code) {
        Some(i) if i < elements.len() => FlatMapped {
            found: true,
            element: listed_element(elements[i]),
        },
        _ => FlatMapped::NONE,
    }
}

// The first place of a code.
fn code_place(codes: &[u32], code: u32) -> Option<usize>
    ensures { result ≡ position (λ c. c == code) codes.now }
{
    codes.iter().position(|c| *c == code)
}

#[tactic(auto, unfolding(crate::specs::FlatLists::listed_element))]
fn listed_element(x: u32) -> FlatElement
    ensures { result ≡ listed_element x }
{
    if x < AXES_FROM {
        FlatElement {
            is_axis: false,
            number: x as u16,
        }
    } else {
        FlatElement {
            is_axis: true,
            number: (x % AXES_FROM) as u16,
        }
    }
}

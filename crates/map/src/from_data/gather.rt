// The filled slots gathered, in ascending order. A code that is not in the list ends it.
ghost use Rattle.std.specs.Prelude.{◌≡◌, ◌≤◌, [], length};
ghost use Rattle.map.specs.Slots.{button_slots};
ghost use Rattle.map.specs.Inner.{element_of, letter_of, Gathers};

use crate::error::MappingError;
use crate::from_data::filled::{Filled, Placed};
use crate::lists::find_code;
use line::ev::{Axis, AxisOrBtn, Button, Code};
use line::mapping::Entry;

// What slots are for.
#[derive(Clone, Copy, PartialEq, Eq)]
pub enum Kind {
    Button,
    Axis,
}

impl Kind {
    // The element of a slot.
    fn element(self, number: u16) -> AxisOrBtn
        ensures { result ≡ element_of self number }
    {
        match self {
            Kind::Button => AxisOrBtn::Btn(Button(number)),
            Kind::Axis => AxisOrBtn::Axis(Axis(number)),
        }
    }

    // What stands before an index.
    pub fn letter(self) -> u8
        ensures { result ≡ letter_of self }
    {
        match self {
            Kind::Button => b'b',
            Kind::Axis => b'a',
        }
    }
}

// The filled slots with the places of their codes, put where they are kept: handed back in a `Result` they would be copied
// at each step. The first code that is not in the list is refused: 15.
pub fn gather(
    filled: &mut Filled,
    slots: &[Option<Code>],
    kind: Kind,
    list: &[u32],
) -> Result<(), MappingError>
    requires few { length slots.now ≤ button_slots }
    requires none { filled.old.items ≡ [] }
    ensures { Gathers list.now kind slots.now result filled.new }
{
    for (i, slot) in slots.iter().enumerate() {
        if let Some(code) = *slot {
            let place = find_code(list, code).ok_or(MappingError::InvalidCode(code))?;
            let entry = Entry::new(code, kind.element(i as u16));
            filled.push(Placed { entry, place });
        }
    }
    Ok(())
}

// The slots from which a mapping is built: one optional code per button and per axis.
ghost use Rattle.std.specs.Prelude.{◌≡◌, length};
ghost use Rattle.map.specs.Slots.{code_at, slots_with, no_slots, button_of, axis_of, insert_btn_of, insert_axis_of};
ghost use Rattle.map.specs.Slots.{remove_button_of, remove_axis_of};

use line::ev::{Axis, Button, Code};

// How many buttons and axes have a slot: their numbers are below these.
pub const BUTTONS: usize = 20;

pub const AXES: usize = 9;

#[derive(Clone, Copy, PartialEq, Eq)]
pub struct MappingData {
    pub buttons: [Option<Code>; BUTTONS],
    pub axes: [Option<Code>; AXES],
}

impl MappingData {
    // No slot is filled.
    pub fn new() -> MappingData
        ensures { result ≡ no_slots }
    {
        MappingData {
            buttons: [None; BUTTONS],
            axes: [None; AXES],
        }
    }

    // The code of a button.
    #[tactic(auto, unfolding(crate::specs::Slots::button_of))]
    pub fn button(&self, idx: Button) -> Option<Code>
        ensures { result ≡ button_of self.now idx }
    {
        code_at(&self.buttons, idx.0)
    }

    // The code of an axis.
    #[tactic(auto, unfolding(crate::specs::Slots::axis_of))]
    pub fn axis(&self, idx: Axis) -> Option<Code>
        ensures { result ≡ axis_of self.now idx }
    {
        code_at(&self.axes, idx.0)
    }

    // Fills a button's slot; the former code.
    #[tactic(auto, unfolding(crate::specs::Slots::insert_btn_of, crate::specs::Slots::button_of))]
    pub fn insert_btn(&mut self, from: Code, to: Button) -> Option<Code>
        ensures { (result, self.new) ≡ insert_btn_of self.old from to }
    {
        replace(&mut self.buttons, to.0, Some(from))
    }

    // Fills an axis's slot; the former code.
    #[tactic(auto, unfolding(crate::specs::Slots::insert_axis_of, crate::specs::Slots::axis_of))]
    pub fn insert_axis(&mut self, from: Code, to: Axis) -> Option<Code>
        ensures { (result, self.new) ≡ insert_axis_of self.old from to }
    {
        replace(&mut self.axes, to.0, Some(from))
    }

    // Empties a button's slot; the former code.
    #[tactic(auto, unfolding(crate::specs::Slots::remove_button_of, crate::specs::Slots::button_of))]
    pub fn remove_button(&mut self, idx: Button) -> Option<Code>
        ensures { (result, self.new) ≡ remove_button_of self.old idx }
    {
        replace(&mut self.buttons, idx.0, None)
    }

    // Empties an axis's slot; the former code.
    #[tactic(auto, unfolding(crate::specs::Slots::remove_axis_of, crate::specs::Slots::axis_of))]
    pub fn remove_axis(&mut self, idx: Axis) -> Option<Code>
        ensures { (result, self.new) ≡ remove_axis_of self.old idx }
    {
        replace(&mut self.axes, idx.0, None)
    }
}

// The code of a slot; a number past the last has none.
fn code_at(slots: &[Option<Code>], number: u16) -> Option<Code>
    ensures { result ≡ code_at (length slots.now) slots.now number }
{
    slots.get(number as usize).copied().flatten()
}

// Another code, or none, put into a slot; the former one. A number past the last changes nothing. By a test: `get_mut`
// was tried, whose promise tells the slot that it lends, and not the slots that it leaves.
fn replace(slots: &mut [Option<Code>], number: u16, code: Option<Code>) -> Option<Code>
    ensures former { result ≡ code_at (length slots.old) slots.old number }
    ensures held { slots.new ≡ slots_with (length slots.old) slots.old number code }
{
    let former = code_at(slots, number);
    let i = number as usize;
    if i < slots.len() {
        slots[i] = code;
    }
    former
}

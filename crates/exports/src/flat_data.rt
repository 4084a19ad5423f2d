// Slots as numbers, both ways.
ghost use Rattle.std.specs.Prelude.{◌≡◌};
ghost use Rattle.exports.specs.FlatSlots.{flat_slot, slot_in, flat_data, data_in};

use crate::flat::code_number;
use line::ev::Code;
use map::mapping_data::{AXES, BUTTONS, MappingData};
use std::array;

// A slot: C's struct, as FlatCode is, whose flag has another name there.
#[repr(C)]
#[derive(Clone, Copy)]
pub struct FlatSlot {
    pub filled: bool,
    pub code: u32,
}

#[repr(C)]
#[derive(Clone, Copy)]
pub struct FlatData {
    pub buttons: [FlatSlot; BUTTONS],
    pub axes: [FlatSlot; AXES],
}

impl From<Option<Code>> for FlatSlot {
    ghost from_gives = { λ s f. f ≡ flat_slot s };

    fn from(slot: Option<Code>) -> FlatSlot {
        FlatSlot {
            filled: slot.is_some(),
            code: code_number(slot),
        }
    }
}

impl From<FlatSlot> for Option<Code> {
    ghost from_gives = { λ f s. s ≡ slot_in f };

    // The code of a slot that is not filled is not read.
    fn from(f: FlatSlot) -> Option<Code> {
        if f.filled { Some(Code(f.code)) } else { None }
    }
}

impl From<MappingData> for FlatData {
    ghost from_gives = { λ d f. f ≡ flat_data d };

    fn from(d: MappingData) -> FlatData {
        FlatData {
            buttons: array::from_fn(|i| d.buttons[i].into()),
            axes: array::from_fn(|i| d.axes[i].into()),
        }
    }
}

// The way back: C's struct of the slots is not the layer's.
impl From<FlatData> for MappingData {
    ghost from_gives = { λ f d. d ≡ data_in f };

    fn from(f: FlatData) -> MappingData {
        MappingData {
            buttons: array::from_fn(|i| f.buttons[i].into()),
            axes: array::from_fn(|i| f.axes[i].into()),
        }
    }
}

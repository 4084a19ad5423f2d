// The calls of the map layer on slots.
ghost use Rattle.std.specs.Prelude.{◌≡◌, length};
ghost use Rattle.line.specs.Elements.{code_of};
ghost use Rattle.map.specs.Slots.{no_slots, button_of, axis_of, insert_btn_of, insert_axis_of, remove_button_of, remove_axis_of};
ghost use Rattle.exports.specs.Flat.{button_in, axis_in, flat_code};
ghost use Rattle.exports.specs.FlatSlots.{flat_data, data_in, flat_slots_with};
ghost use Rattle.exports.specs.FlatSlots.{flat_with_element, flat_element_changed, flat_button_changed, flat_axis_changed};

use crate::flat_data::{FlatData, FlatSlot};
use crate::line_calls::FlatCode;
use line::ev::{Axis, AxisOrBtn, Button, Code};
use map::mapping_data::MappingData;

// What an insert or a remove hands back: the former code, and the changed slots.
#[repr(C)]
#[derive(Clone, Copy)]
pub struct FlatChanged {
    pub former: FlatCode,
    pub slots: FlatData,
}

// A slot put into those that are lent. A number past the last changes nothing. By a test: `get_mut` was tried, whose
// promise tells the slot that it lends, and not the slots that it leaves.
fn put_slot(slots: &mut [FlatSlot], number: u16, slot: FlatSlot)
    ensures { slots.new ≡ flat_slots_with (length slots.old) slots.old number slot }
{
    let i = number as usize;
    if i < slots.len() {
        slots[i] = slot;
    }
}

// The lent slots with the one of that element as it is after the call. Each other comes back as it was lent, also one
// that is not filled.
fn with_slot(lent: FlatData, of: AxisOrBtn, after: MappingData) -> FlatData
    ensures { result ≡ flat_with_element lent of after }
{
    let mut slots = lent;
    match of {
        AxisOrBtn::Btn(b) => put_slot(&mut slots.buttons, b.0, after.button(b).into()),
        AxisOrBtn::Axis(a) => put_slot(&mut slots.axes, a.0, after.axis(a).into()),
    }
    slots
}

// The former code, and the slots, where a call changed the one of that element.
fn changed(lent: FlatData, of: AxisOrBtn, former: Option<Code>, after: MappingData) -> FlatChanged
    ensures { result ≡ flat_element_changed lent of (former, after) }
{
    FlatChanged {
        former: former.into(),
        slots: with_slot(lent, of, after),
    }
}

#[unsafe(no_mangle)]
pub extern "C" fn raspteal_data_new() -> FlatData
    ensures { result ≡ flat_data no_slots }
{
    MappingData::new().into()
}

#[unsafe(no_mangle)]
pub extern "C" fn raspteal_data_button(data: FlatData, button: u16) -> FlatCode
    ensures { result ≡ flat_code (button_of (data_in «data») (button_in button)) }
{
    MappingData::from(data).button(Button(button)).into()
}

#[unsafe(no_mangle)]
pub extern "C" fn raspteal_data_axis(data: FlatData, axis: u16) -> FlatCode
    ensures { result ≡ flat_code (axis_of (data_in «data») (axis_in axis)) }
{
    MappingData::from(data).axis(Axis(axis)).into()
}

#[unsafe(no_mangle)]
pub extern "C" fn raspteal_data_insert_btn(data: FlatData, code: u32, button: u16) -> FlatChanged
    ensures { result ≡ flat_button_changed «data» (button_in button)
        (insert_btn_of (data_in «data») (code_of code) (button_in button)) }
{
    let mut slots = MappingData::from(data);
    let former = slots.insert_btn(Code(code), Button(button));
    changed(data, AxisOrBtn::Btn(Button(button)), former, slots)
}

#[unsafe(no_mangle)]
pub extern "C" fn raspteal_data_insert_axis(data: FlatData, code: u32, axis: u16) -> FlatChanged
    ensures { result ≡ flat_axis_changed «data» (axis_in axis)
        (insert_axis_of (data_in «data») (code_of code) (axis_in axis)) }
{
    let mut slots = MappingData::from(data);
    let former = slots.insert_axis(Code(code), Axis(axis));
    changed(data, AxisOrBtn::Axis(Axis(axis)), former, slots)
}

#[unsafe(no_mangle)]
pub extern "C" fn raspteal_data_remove_button(data: FlatData, button: u16) -> FlatChanged
    ensures { result ≡ flat_button_changed «data» (button_in button)
        (remove_button_of (data_in «data») (button_in button)) }
{
    let mut slots = MappingData::from(data);
    let former = slots.remove_button(Button(button));
    changed(data, AxisOrBtn::Btn(Button(button)), former, slots)
}

#[unsafe(no_mangle)]
pub extern "C" fn raspteal_data_remove_axis(data: FlatData, axis: u16) -> FlatChanged
    ensures { result ≡ flat_axis_changed «data» (axis_in axis)
        (remove_axis_of (data_in «data») (axis_in axis)) }
{
    let mut slots = MappingData::from(data);
    let former = slots.remove_axis(Axis(axis));
    changed(data, AxisOrBtn::Axis(Axis(axis)), former, slots)
}

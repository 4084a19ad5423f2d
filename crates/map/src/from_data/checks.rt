// What a build checks before its line is made: 10, 17, 12, 13, 14, 15, 14, 15, 16, in this order.
ghost use Rattle.std.specs.Prelude.{◌≡◌, []};
ghost use Rattle.map.specs.Build.{filled_axes, axis_checks, slot_checks, checks_of};
ghost use Rattle.map.specs.Inner.{placed_in, Passes, Gathered, Ungathered};

use crate::error::MappingError;
use crate::from_data::NAME_MAX;
use crate::from_data::filled::{Filled, Pairs};
use crate::from_data::gather::{Kind, gather};
use crate::lists::Codes;
use crate::mapping_data::MappingData;
use line::ev::{Axis, Button};
use text::bytes::find_byte;
use text::utf8::valid_up_to;

// The axes' slots: 14, 15, 16.
#[tactic(auto, using(crate::proofs::FilledLaws::axes_after), unfolding(crate::specs::Build::axis_checks))]
fn axes_checked(filled: &mut Filled, slots: &MappingData, axes: &[u32]) -> Result<(), MappingError>
    requires { filled.old.items ≡ [] }
    ensures { Passes result (axis_checks slots.now axes.now)
        (λ _. filled.new.items ≡ placed_in axes.now (filled_axes slots.now)) }
{
    if slots.axis(Axis::Unknown).is_some() {
        return Err(MappingError::UnknownElement);
    }
    gather(filled, &slots.axes, Kind::Axis, axes)?;
    if slots.axis(Axis::DPadX).is_some() || slots.axis(Axis::DPadY).is_some() {
        return Err(MappingError::NotSdl2Compatible);
    }
    Ok(())
}

// The buttons' slots: 14, 15; then the axes'.
#[tactic(auto, using(crate::proofs::FilledLaws::buttons_after), unfolding(crate::specs::Build::slot_checks))]
fn slots_checked(pairs: &mut Pairs, slots: &MappingData, codes: Codes) -> Result<(), MappingError>
    requires { Ungathered pairs.old }
    ensures { Passes result (slot_checks slots.now codes.entry.buttons.now codes.entry.axes.now)
        (λ _. Gathered slots.now codes.entry.buttons.now codes.entry.axes.now pairs.new) }
{
    if slots.button(Button::Unknown).is_some() {
        return Err(MappingError::UnknownElement);
    }
    gather(
        &mut pairs.buttons,
        &slots.buttons,
        Kind::Button,
        codes.buttons,
    )?;
    axes_checked(&mut pairs.axes, slots, codes.axes)
}

// The name and the lists: 10, 17, 12, 13; then the slots, whose pairs are gathered.
#[tactic(auto, unfolding(crate::specs::Build::checks_of, text::specs::Utf8::is_utf8))]
pub fn checked(
    pairs: &mut Pairs,
    slots: &MappingData,
    codes: Codes,
    name: &[u8],
) -> Result<(), MappingError>
    requires { Ungathered pairs.old }
    ensures { Passes result (checks_of slots.now codes.entry.buttons.now codes.entry.axes.now name.now)
        (λ _. Gathered slots.now codes.entry.buttons.now codes.entry.axes.now pairs.new) }
{
    let run = valid_up_to(name);
    if run != name.len() {
        return Err(MappingError::NotUtf8(run));
    }
    if NAME_MAX < name.len() {
        return Err(MappingError::NameTooLong);
    }
    if !codes.fit() {
        return Err(MappingError::ListTooLong);
    }
    if find_byte(name, b',') != name.len() {
        return Err(MappingError::InvalidName);
    }
    slots_checked(pairs, slots, codes)
}

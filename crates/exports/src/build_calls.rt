// The calls of the map layer that make a map: the default, and build; and the table of key codes.
ghost use Rattle.std.specs.Prelude.{◌≡◌, length};
ghost use Rattle.line.specs.Elements.{code_of};
ghost use Rattle.map.specs.Default.{default_of};
ghost use Rattle.map.specs.Keys.{key_button, key_table};
ghost use Rattle.map.specs.Build.{build_of, output_of};
ghost use Rattle.exports.specs.FlatSlots.{data_in, flat_default, flat_built};

use crate::flat::FlatRefusal;
use crate::flat_data::FlatData;
use crate::flat_mapping::FlatMapping;
use line::ev::Code;
use map::error::mapping_outcome;
use map::keys::{KeyTable, key_button, key_table};
use text::uuid::Uuid;

// A refused one has the empty map.
#[repr(C)]
#[derive(Clone, Copy)]
pub struct FlatDefault {
    pub refusal: FlatRefusal,
    pub map: FlatMapping,
}

// A refused build has the empty map and length 0.
#[repr(C)]
#[derive(Clone, Copy)]
pub struct FlatBuilt {
    pub refusal: FlatRefusal,
    pub map: FlatMapping,
    pub len: usize,
}

#[unsafe(no_mangle)]
pub extern "C" fn raspteal_key_button(code: u32) -> u16
    ensures { result ≡ (key_button (code_of code)).0 }
{
    key_button(Code(code)).0
}

#[unsafe(no_mangle)]
pub extern "C" fn raspteal_key_table() -> KeyTable
    ensures { result ≡ key_table }
{
    key_table()
}

#[unsafe(no_mangle)]
pub extern "C" fn raspteal_default(buttons: &[u32], axes: &[u32]) -> FlatDefault
    ensures { result ≡ flat_default (default_of buttons.now axes.now) }
{
    let made = map::default::default(buttons, axes);
    let mut flat = FlatDefault {
        refusal: mapping_outcome(made.answer).into(),
        map: FlatMapping::empty(),
    };
    flat.map.lay_out(&made.map);
    flat
}

#[unsafe(no_mangle)]
pub extern "C" fn raspteal_from_data(
    data: FlatData,
    buttons: &[u32],
    axes: &[u32],
    name: &[u8],
    id: Uuid,
    out: &mut [u8],
) -> FlatBuilt
    ensures value { result ≡ flat_built (build_of (data_in «data») buttons.now axes.now name.now id (length out.old)) }
    ensures out_after { out.new ≡ output_of (data_in «data») buttons.now axes.now name.now id out.old }
{
    let built = map::from_data::from_data(data.into(), buttons, axes, name, id, out);
    let mut flat = FlatBuilt {
        refusal: mapping_outcome(built.answer).into(),
        map: FlatMapping::empty(),
        len: built.len,
    };
    flat.map.lay_out(&built.map);
    flat
}

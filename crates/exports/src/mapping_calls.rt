// The calls of the line layer on maps and key names.
ghost use Rattle.std.specs.Prelude.{◌≡◌};
ghost use Rattle.line.specs.Elements.{code_of};
ghost use Rattle.line.specs.Maps.{entry_of, ranged_entry, empty_map, held, put_of, map_of, entry_at, map_rev_of};
ghost use Rattle.line.specs.Numbers.{entry_number};
ghost use Rattle.line.specs.Numbers as Numbers;
ghost use Rattle.line.specs.Tables.{key_element, ident_text};
ghost use Rattle.exports.specs.Flat.{element_of, flat_code};
ghost use Rattle.exports.specs.FlatMaps.{flat_entry, flat_ranges, flat_mapping, mapping_in, entry_in, flat_put, flat_mapped, flat_entered, flat_ident};

use crate::flat::{FlatElement, FlatRefusal};
use crate::flat_mapping::{FlatEntry, FlatMapping, ranges_of};
use crate::line_calls::FlatCode;
use line::ev::{AxisOrBtn, Code};
use line::mapping::{Entry, Mapping};
use line::refusal::put_outcome;
use line::tables::{IDENT_MAX, find_element, ident_of};

// A map after a put. A refused put leaves it as it was.
#[repr(C)]
#[derive(Clone, Copy)]
pub struct FlatPut {
    pub refusal: FlatRefusal,
    pub map: FlatMapping,
}

// An element, if there is one.
#[repr(C)]
#[derive(Clone, Copy)]
pub struct FlatMapped {
    pub found: bool,
    pub element: FlatElement,
}

impl FlatMapped {
    pub const NONE: FlatMapped = FlatMapped {
        found: false,
        element: FlatElement::NONE,
    };
}

impl From<Option<AxisOrBtn>> for FlatMapped {
    ghost from_gives = { λ m f. f ≡ flat_mapped m };

    fn from(mapped: Option<AxisOrBtn>) -> FlatMapped {
        FlatMapped {
            found: mapped.is_some(),
            element: mapped.map_or(FlatElement::NONE, FlatElement::from),
        }
    }
}

// An entry, if there is one; else an unused one.
#[repr(C)]
#[derive(Clone, Copy)]
pub struct FlatEntered {
    pub found: bool,
    pub entry: FlatEntry,
}

impl From<Option<Entry>> for FlatEntered {
    ghost from_gives = { λ e f. f ≡ flat_entered e };

    fn from(entered: Option<Entry>) -> FlatEntered {
        FlatEntered {
            found: entered.is_some(),
            entry: entered.map_or(FlatEntry::UNUSED, FlatEntry::from),
        }
    }
}

// The name of an element: the first `len` bytes. C's struct, as FlatMapping is.
#[repr(C)]
#[derive(Clone, Copy)]
pub struct FlatIdent {
    pub name: [u8; IDENT_MAX],
    pub len: usize,
}

#[unsafe(no_mangle)]
pub extern "C" fn raspteal_entry_new(code: u32, element: FlatElement) -> FlatEntry
    ensures { result ≡ flat_entry (entry_of (code_of code) (element_of element)) }
{
    Entry::new(Code(code), element.into()).into()
}

#[unsafe(no_mangle)]
pub extern "C" fn raspteal_entry_ranged(
    code: u32,
    element: FlatElement,
    input: u8,
    output: u8,
    inverted: bool,
) -> FlatEntry
    ensures { result ≡ flat_entry (ranged_entry (code_of code) (element_of element) (flat_ranges input output inverted)) }
{
    let ranges = ranges_of(input, output, inverted);
    Entry::ranged(Code(code), element.into(), ranges).into()
}

#[unsafe(no_mangle)]
pub extern "C" fn raspteal_entry_number(e: FlatEntry) -> u64
    ensures { (result ≡ entry_number (entry_in e)) × (Numbers.entry_in result ≡ entry_in e) }
{
    Entry::from(e).number()
}

#[unsafe(no_mangle)]
pub extern "C" fn raspteal_entry_of_number(x: u64) -> FlatEntry
    ensures { result ≡ flat_entry (Numbers.entry_in x) }
{
    Entry::of_number(x).into()
}

#[unsafe(no_mangle)]
pub extern "C" fn raspteal_mapping_new() -> FlatMapping
    ensures { result ≡ flat_mapping empty_map }
{
    Mapping::new().into()
}

#[unsafe(no_mangle)]
pub extern "C" fn raspteal_mapping_put(map: FlatMapping, e: FlatEntry) -> FlatPut
    ensures { result ≡ flat_put (put_of (mapping_in map) (entry_in e)) }
{
    let mut map = Mapping::from(map);
    let answer = map.put(e.into());
    FlatPut {
        refusal: put_outcome(answer).into(),
        map: map.into(),
    }
}

#[unsafe(no_mangle)]
pub extern "C" fn raspteal_mapping_map(map: FlatMapping, code: u32) -> FlatMapped
    ensures { result ≡ flat_mapped (map_of (held (mapping_in map)) (code_of code)) }
{
    Mapping::from(map).map(Code(code)).into()
}

#[unsafe(no_mangle)]
pub extern "C" fn raspteal_mapping_entry(map: FlatMapping, code: u32) -> FlatEntered
    ensures { result ≡ flat_entered (entry_at (held (mapping_in map)) (code_of code)) }
{
    Mapping::from(map).entry(Code(code)).into()
}

#[unsafe(no_mangle)]
pub extern "C" fn raspteal_mapping_map_rev(map: FlatMapping, e: FlatElement) -> FlatCode
    ensures { result ≡ flat_code (map_rev_of (held (mapping_in map)) (element_of e)) }
{
    Mapping::from(map).map_rev(e.into()).into()
}

#[unsafe(no_mangle)]
pub extern "C" fn raspteal_find_element(key: &[u8]) -> FlatMapped
    ensures { result ≡ flat_mapped (key_element key.now) }
{
    find_element(key).into()
}

#[unsafe(no_mangle)]
pub extern "C" fn raspteal_ident_of(e: FlatElement) -> FlatIdent
    ensures { result ≡ flat_ident (ident_text (element_of e)) }
{
    let ident = ident_of(e.into());
    let mut name = [0u8; IDENT_MAX];
    name[..ident.len()].copy_from_slice(ident);
    FlatIdent {
        name,
        len: ident.len(),
    }
}

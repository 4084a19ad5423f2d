// Maps as numbers, both ways.
ghost use Rattle.std.specs.Prelude.{◌≡◌, map};
ghost use Rattle.exports.specs.FlatMaps.{flat_entry, flat_ranges, entry_in, flat_mapping, mapping_in, Unused, Blank};

use crate::flat::FlatElement;
use crate::flat_token::{range_number, range_of};
use line::ev::Code;
use line::mapping::{CODES_MAX, Entry, Mapping};
use line::parser::Ranges;
use std::array;

#[repr(C)]
#[derive(Clone, Copy)]
pub struct FlatEntry {
    pub code: u32,
    pub element: FlatElement,
    pub input: u8,
    pub output: u8,
    pub inverted: bool,
}

// A map: the first `count` entries. C's struct, a count beside an array: C has no slice in a struct.
#[repr(C)]
#[derive(Clone, Copy)]
pub struct FlatMapping {
    pub count: usize,
    pub entries: [FlatEntry; CODES_MAX],
    pub name_start: usize,
    pub name_len: usize,
    pub is_default: bool,
    pub hats_mapped: u8,
}

impl FlatEntry {
    pub const UNUSED: FlatEntry = FlatEntry {
        code: 0,
        element: FlatElement::NONE,
        input: 2,
        output: 2,
        inverted: false,
    };
}

impl From<Entry> for FlatEntry {
    ghost from_gives = { λ e f. f ≡ flat_entry e };

    fn from(e: Entry) -> FlatEntry {
        FlatEntry {
            code: e.code.0,
            element: e.element.into(),
            input: range_number(e.ranges.input),
            output: range_number(e.ranges.output),
            inverted: e.ranges.inverted,
        }
    }
}

impl From<Mapping> for FlatMapping {
    ghost from_gives = { λ m f. f ≡ flat_mapping m };

    fn from(m: Mapping) -> FlatMapping {
        FlatMapping {
            count: m.count,
            entries: array::from_fn(|i| m.entries[i].into()),
            name_start: m.name_start,
            name_len: m.name_len,
            is_default: m.is_default,
            hats_mapped: m.hats_mapped,
        }
    }
}

static UNUSED: [FlatEntry; CODES_MAX] = [FlatEntry::UNUSED; CODES_MAX];

impl FlatMapping {
    // No entries: what a map is laid out into. They are copied from a static that is lent: a constant, or the static by
    // value, is made anew, entry by entry, wherever it is read.
    pub fn empty() -> FlatMapping
        ensures { Blank result }
    {
        let unused = &UNUSED;
        FlatMapping {
            count: 0,
            entries: *unused,
            name_start: 0,
            name_len: 0,
            is_default: false,
            hats_mapped: 0,
        }
    }

    // Lays out a map that has nothing after its entries, as one that was built: only those in use, one by one, and where
    // C gets them, which spares a build a quarter of its time. By place: with lent places in a `zip`, which was tried,
    // the proof that each entry lies at its own didn't close.
    pub fn lay_out(&mut self, m: &Mapping)
        requires { Unused m.now.count m.now.entries × Blank self.old }
        ensures { self.new ≡ flat_mapping m.now }
    {
        self.count = m.count;
        self.name_start = m.name_start;
        self.name_len = m.name_len;
        self.is_default = m.is_default;
        self.hats_mapped = m.hats_mapped;
        for i in 0..m.count {
            self.entries[i] = m.entries[i].into();
        }
    }
}

pub fn ranges_of(input: u8, output: u8, inverted: bool) -> Ranges
    ensures { result ≡ flat_ranges input output inverted }
{
    Ranges {
        input: range_of(input),
        output: range_of(output),
        inverted,
    }
}

impl From<FlatEntry> for Entry {
    ghost from_gives = { λ f e. e ≡ entry_in f };

    fn from(f: FlatEntry) -> Entry {
        Entry {
            code: Code(f.code),
            element: f.element.into(),
            ranges: ranges_of(f.input, f.output, f.inverted),
        }
    }
}

impl From<FlatMapping> for Mapping {
    ghost from_gives = { λ f m. m ≡ mapping_in f };

    fn from(f: FlatMapping) -> Mapping {
        Mapping {
            count: f.count,
            entries: array::from_fn(|i| f.entries[i].into()),
            name_start: f.name_start,
            name_len: f.name_len,
            is_default: f.is_default,
            hats_mapped: f.hats_mapped,
        }
    }
}

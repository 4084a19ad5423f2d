// What crosses the boundary, and how the answers of the layers are laid out as numbers. C has no Option and no enum with
// values: a flag stands beside each value that may be missing, and a number for a kind. Nor has it slices in a struct: a
// count stands beside an array of which only the first are in use. Nor has it generic structs: each struct for C has a
// From of its own, each way that it crosses, also where two look alike; what asks something of a map is a function. A
// layer's struct of nothing but numbers (Uuid, KeyTable, Pad, Pads) crosses as it is. Arrays cross by `array::from_fn`:
// the array's `map` was proved too and takes near three times the instructions for a map that is handed over.
ghost use Rattle.std.specs.Prelude.{◌≡◌, Err};
ghost use Rattle.exports.specs.Flat.{flat_written, form_number, flat_element, element_of, place_number, code_number, flat_outcome};

use line::ev::{Axis, AxisOrBtn, Button, Code};
use line::refusal::Refusal;
use text::uuid::Form;

// Where a writer stopped; 0 where the text did not fit. C's struct, as FlatValue and FlatIndexParse are.
#[repr(C)]
#[derive(Clone, Copy)]
pub struct FlatWritten {
    pub fits: bool,
    pub next: usize,
}

// A button, or an axis, by its number.
#[repr(C)]
#[derive(Clone, Copy)]
pub struct FlatElement {
    pub is_axis: bool,
    pub number: u16,
}

// A refusal by document 01's number, 0 where nothing was refused; its place and the code that it carries, 0 where it has none.
#[repr(C)]
#[derive(Clone, Copy)]
pub struct FlatRefusal {
    pub number: u8,
    pub has_place: bool,
    pub place: usize,
    pub has_code: bool,
    pub code: u32,
}

impl FlatElement {
    // What stands where there is no element.
    pub const NONE: FlatElement = FlatElement {
        is_axis: false,
        number: 0,
    };
}

impl FlatRefusal {
    pub const NONE: FlatRefusal = FlatRefusal {
        number: 0,
        has_place: false,
        place: 0,
        has_code: false,
        code: 0,
    };
}

impl From<Option<usize>> for FlatWritten {
    ghost from_gives = { λ w f. f ≡ flat_written w };

    fn from(end: Option<usize>) -> FlatWritten {
        FlatWritten {
            fits: end.is_some(),
            next: end.unwrap_or(0),
        }
    }
}

// The number that C knows a form by. The layers know nothing of C, so that no From of theirs tells it. Each kind has its
// own numbers, so each has a table.
pub fn form_number(f: Form) -> u8
    ensures { result ≡ form_number f }
{
    match f {
        Form::Simple => 1,
        Form::Hyphenated => 2,
        Form::Braced => 3,
        Form::Urn => 4,
        Form::Xinput => 5,
    }
}

impl From<AxisOrBtn> for FlatElement {
    ghost from_gives = { λ e f. f ≡ flat_element e };

    fn from(e: AxisOrBtn) -> FlatElement {
        match e {
            AxisOrBtn::Axis(a) => FlatElement {
                is_axis: true,
                number: a.0,
            },
            AxisOrBtn::Btn(b) => FlatElement {
                is_axis: false,
                number: b.0,
            },
        }
    }
}

impl From<FlatElement> for AxisOrBtn {
    ghost from_gives = { λ f e. e ≡ element_of f };

    fn from(f: FlatElement) -> AxisOrBtn {
        if f.is_axis {
            AxisOrBtn::Axis(Axis(f.number))
        } else {
            AxisOrBtn::Btn(Button(f.number))
        }
    }
}

// The place of a refusal, 0 where it has none.
fn place_number(place: Option<usize>) -> usize
    ensures { result ≡ place_number place }
{
    place.unwrap_or(0)
}

// The number of a code, 0 where there is none.
pub fn code_number(code: Option<Code>) -> u32
    ensures { result ≡ code_number code }
{
    code.map_or(0, |c| c.0)
}

impl From<Refusal> for FlatRefusal {
    ghost from_gives = { λ r f. f ≡ flat_outcome (Err r) };

    fn from(refusal: Refusal) -> FlatRefusal {
        FlatRefusal {
            number: refusal.number,
            has_place: refusal.place.is_some(),
            place: place_number(refusal.place),
            has_code: refusal.code.is_some(),
            code: code_number(refusal.code),
        }
    }
}

impl From<Result<(), Refusal>> for FlatRefusal {
    ghost from_gives = { λ o f. f ≡ flat_outcome o };

    fn from(outcome: Result<(), Refusal>) -> FlatRefusal {
        match outcome {
            Ok(()) => FlatRefusal::NONE,
            Err(refusal) => refusal.into(),
        }
    }
}

// The lines that raw values run along. Which input, output and inversion an entry has is looked up in a table, and no
// branch asks for it: where codes come mixed, a processor foresees no such branch, and each that it takes for the wrong
// one costs more than all that is computed here.
ghost use Rattle.std.specs.Prelude.{◌≡◌, ◌<◌};
ghost use Rattle.pad.specs.Lines.{input_rows, half_rows, output_rows, raw_rows, button_step, raw_step};
ghost use Rattle.pad.specs.Lines.{line_in, line_of, Gentle, along, counts};
ghost use Rattle.pad.specs.ValueClaims.{RawWithin};

use crate::events::Raw;
use line::ev::AxisOrBtn;
use line::parser::{AxisRange, Ranges};

// A value is (v * rise + start) / 2^32, rounded down, and of that the last 16 bits. There is none where v * side is
// below 0.
#[derive(Clone, Copy)]
pub struct Line {
    rise: i64,
    start: i64,
    side: i64,
}

// The value as it is, from below 0 on; and a raw button's with a lower half.
const UPWARD: Line = Line {
    rise: 4294967296,
    start: 562949953421312,
    side: 0,
};

const DOWNWARD: Line = Line {
    rise: -4295098373,
    start: 562954248388607,
    side: 0,
};

// Inputs, of each the outputs, of each upright and inverted. A rise is k / d in units of 2^-32, rounded up: k is the
// output's greatest number (65535 full, 32767 upper, 32768 lower), d the input's. A start is the value at 0 in the same
// units: 2^49 more, so that no sum is below 0, and for a lower output nearly 1 more, which is to be rounded toward 0.
static LINES: [Line; 24] = [
    // a full input: to a full output, to an upper one or a button, to a lower one; each upright, then inverted
    UPWARD,
    Line {
        rise: -4294967296,
        start: 562945658454016,
        side: 0,
    },
    Line {
        rise: 2147450880,
        start: 633317623857152,
        side: 0,
    },
    Line {
        rise: -2147450880,
        start: 633315476406272,
        side: 0,
    },
    Line {
        rise: -2147516417,
        start: 492584430436351,
        side: 0,
    },
    Line {
        rise: 2147516417,
        start: 492586577952768,
        side: 0,
    },
    // an upper input
    Line {
        rise: 8590065669,
        start: 422212465065984,
        side: 1,
    },
    Line {
        rise: -8590065669,
        start: 703683146842107,
        side: 1,
    },
    Line {
        rise: 4294967296,
        start: 562949953421312,
        side: 1,
    },
    Line {
        rise: -4294967296,
        start: 703683146809344,
        side: 1,
    },
    Line {
        rise: -4295098373,
        start: 562954248388607,
        side: 1,
    },
    Line {
        rise: 4295098373,
        start: 422216760000516,
        side: 1,
    },
    // a lower input
    Line {
        rise: -8589803520,
        start: 422212465065984,
        side: -1,
    },
    Line {
        rise: 8589803520,
        start: 703683146809344,
        side: -1,
    },
    Line {
        rise: -4294836224,
        start: 562949953421312,
        side: -1,
    },
    Line {
        rise: 4294836224,
        start: 703683146809344,
        side: -1,
    },
    Line {
        rise: 4294967296,
        start: 562954248388607,
        side: -1,
    },
    Line {
        rise: -4294967296,
        start: 422216760033279,
        side: -1,
    },
    // a raw button
    UPWARD,
    UPWARD,
    UPWARD,
    UPWARD,
    DOWNWARD,
    DOWNWARD,
];

// The first row of an input.
fn input_rows(input: AxisRange) -> usize
    ensures { result ≡ input_rows input }
{
    match input {
        AxisRange::Full => 0,
        AxisRange::UpperHalf => 6,
        AxisRange::LowerHalf => 12,
    }
}

// How far the rows of an output stand behind those.
fn half_rows(half: AxisRange) -> usize
    ensures { result ≡ half_rows half }
{
    match half {
        AxisRange::Full => 0,
        AxisRange::UpperHalf => 2,
        AxisRange::LowerHalf => 4,
    }
}

// The same with a button's, which stand where an upper half's do. The half is looked at first: inside of the match it
// would be a branch.
fn output_rows(e: AxisOrBtn, half: AxisRange) -> usize
    ensures { result ≡ output_rows e half }
{
    let rows = half_rows(half);
    match e {
        AxisOrBtn::Btn(_) => 2,
        AxisOrBtn::Axis(_) => rows,
    }
}

// The first row of a raw value: a button asks for no input.
fn raw_rows(input: AxisRange, raw: Raw) -> usize
    ensures { result ≡ raw_rows input raw }
{
    let rows = input_rows(input);
    match raw {
        Raw::AxisValueChanged(_) => rows,
        _ => 18,
    }
}

// How far along its line a raw button is.
fn button_step(raw: Raw) -> i16
    ensures { result ≡ button_step raw }
{
    match raw {
        Raw::ButtonPressed => 32767,
        _ => 0,
    }
}

// How far along its line a raw value is. Two questions one after the other, as in `raw_rows`, and no match with three
// answers: that would be a branch.
pub fn raw_step(raw: Raw) -> i16
    ensures { (result ≡ raw_step raw) × RawWithin raw }
{
    let button = button_step(raw);
    match raw {
        Raw::AxisValueChanged(v) => v,
        _ => button,
    }
}

// The line in a row.
fn line_in(row: usize) -> Line
    requires { row < 24 }
    ensures { (result ≡ line_in row) × Gentle result }
{
    LINES[row]
}

// The line of an entry's element, input, output and inversion.
pub fn line_of(e: AxisOrBtn, r: Ranges, raw: Raw) -> Line
    ensures { (result ≡ line_of e r raw) × Gentle result }
{
    line_in(raw_rows(r.input, raw) + output_rows(e, r.output) + r.inverted as usize)
}

// What both methods ask is that no sum is below 0 or too large, which `line_of` promises. No field says it: the lines
// stand in a static, which is plain data.
impl Line {
    // The value at v.
    pub fn along(self, v: i16) -> i16
        requires { Gentle self }
        ensures { result ≡ along self v }
    {
        let sum = (v as i64 * self.rise + self.start) as u64;
        (((sum >> 32) % 65536) as u16).cast_signed()
    }

    // Whether there is a value at v.
    pub fn counts(self, v: i16) -> bool
        requires { Gentle self }
        ensures { result ≡ counts self v }
    {
        v as i64 * self.side >= 0
    }
}

// Tokens of the walker as numbers.
ghost use Rattle.std.specs.Prelude.{◌≡◌};
ghost use Rattle.exports.specs.FlatTokens.{range_number, range_in, state_number, state_in, flat_pair, text_token, pair_token, flat_token, flat_answer, bare_token};

use crate::flat::{FlatElement, FlatRefusal};
use line::ev::AxisOrBtn;
use line::parser::{AxisRange, Error, Ranges, State, Token};
use text::uuid::Uuid;

// What a pair says. `from` is the index, or the hat's number.
#[repr(C)]
#[derive(Clone, Copy)]
pub struct FlatPair {
    pub from: u16,
    pub direction: u16,
    pub to: FlatElement,
    pub input: u8,
    pub output: u8,
    pub inverted: bool,
}

// An answer of the walker by its kind: 0 end, 1 refused, 2 UUID, 3 platform, 4 name, 5 axis, 6 button, 7 hat. What its
// kind has no use for is 0.
#[repr(C)]
#[derive(Clone, Copy)]
pub struct FlatToken {
    pub kind: u8,
    pub refusal: FlatRefusal,
    pub id: Uuid,
    pub start: usize,
    pub len: usize,
    pub pair: FlatPair,
}

// The kinds, as C knows them: C has no enum whose cases hold values.
const END: u8 = 0;

const REFUSED: u8 = 1;

const UUID: u8 = 2;

const PLATFORM: u8 = 3;

const NAME: u8 = 4;

const AXIS: u8 = 5;

const BUTTON: u8 = 6;

const HAT: u8 = 7;

// The number that C knows a range by. (line's packed ranges number the halves otherwise.)
pub fn range_number(r: AxisRange) -> u8
    ensures { result ≡ range_number r }
{
    match r {
        AxisRange::LowerHalf => 0,
        AxisRange::UpperHalf => 1,
        AxisRange::Full => 2,
    }
}

// A number over 2 is read as full.
#[tactic(auto, unfolding(crate::specs::FlatTokens::range_in))]
pub fn range_of(n: u8) -> AxisRange
    ensures { result ≡ range_in n }
{
    match n {
        0 => AxisRange::LowerHalf,
        1 => AxisRange::UpperHalf,
        _ => AxisRange::Full,
    }
}

// The number that C knows a state by: a table for each kind, as `form_number` says.
pub fn state_number(s: State) -> u8
    ensures { result ≡ state_number s }
{
    match s {
        State::Uuid => 0,
        State::Name => 1,
        State::KeyVal => 2,
        State::Invalid => 3,
        State::NotUtf8 => 4,
    }
}

// A number that no state has is read as the state after a 1 or 2.
#[tactic(auto, unfolding(crate::specs::FlatTokens::state_in))]
pub fn state_of(n: u8) -> State
    ensures { result ≡ state_in n }
{
    match n {
        0 => State::Uuid,
        1 => State::Name,
        2 => State::KeyVal,
        4 => State::NotUtf8,
        _ => State::Invalid,
    }
}

fn flat_pair(from: u16, direction: u16, to: AxisOrBtn, ranges: Ranges) -> FlatPair
    ensures { result ≡ flat_pair from direction to ranges }
{
    FlatPair {
        from,
        direction,
        to: to.into(),
        input: range_number(ranges.input),
        output: range_number(ranges.output),
        inverted: ranges.inverted,
    }
}

impl FlatPair {
    // What stands where there is no pair.
    const NONE: FlatPair = FlatPair {
        from: 0,
        direction: 0,
        to: FlatElement::NONE,
        input: 0,
        output: 0,
        inverted: false,
    };
}

// An answer that says nothing but its kind.
fn bare_token(kind: u8) -> FlatToken
    ensures { result ≡ bare_token kind }
{
    FlatToken {
        kind,
        refusal: FlatRefusal::NONE,
        id: Uuid::NIL,
        start: 0,
        len: 0,
        pair: FlatPair::NONE,
    }
}

fn text_token(kind: u8, start: usize, len: usize) -> FlatToken
    ensures { result ≡ text_token kind start len }
{
    FlatToken {
        start,
        len,
        ..bare_token(kind)
    }
}

fn pair_token(kind: u8, pair: FlatPair) -> FlatToken
    ensures { result ≡ pair_token kind pair }
{
    FlatToken {
        pair,
        ..bare_token(kind)
    }
}

impl From<Token> for FlatToken {
    ghost from_gives = { λ t f. f ≡ flat_token t };

    fn from(t: Token) -> FlatToken {
        match t {
            Token::Uuid(u) => FlatToken {
                id: u,
                ..bare_token(UUID)
            },
            Token::Platform { start, len } => text_token(PLATFORM, start, len),
            Token::Name { start, len } => text_token(NAME, start, len),
            Token::AxisMapping { from, to, ranges } => {
                pair_token(AXIS, flat_pair(from, 0, to, ranges))
            }
            Token::ButtonMapping { from, to, ranges } => {
                pair_token(BUTTON, flat_pair(from, 0, to, ranges))
            }
            Token::HatMapping {
                hat,
                direction,
                to,
                ranges,
            } => pair_token(HAT, flat_pair(hat, direction, to, ranges)),
        }
    }
}

impl From<Option<Result<Token, Error>>> for FlatToken {
    ghost from_gives = { λ a f. f ≡ flat_answer a };

    fn from(answer: Option<Result<Token, Error>>) -> FlatToken {
        match answer {
            Some(Ok(t)) => t.into(),
            Some(Err(e)) => FlatToken {
                refusal: e.refusal().into(),
                ..bare_token(REFUSED)
            },
            None => bare_token(END),
        }
    }
}

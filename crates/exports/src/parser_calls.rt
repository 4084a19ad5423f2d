// The calls of the line layer on lines: the walker, and the reading.
ghost use Rattle.std.specs.Prelude.{◌≡◌};
ghost use Rattle.line.specs.Walker.{start_of, step_of, first_form};
ghost use Rattle.line.specs.Parser.{parser_of, step_from, tokens_of};
ghost use Rattle.line.specs.Reading.{reading_of};
ghost use Rattle.exports.specs.Flat.{first_form_number};
ghost use Rattle.exports.specs.FlatTokens.{state_number, state_in, flat_answer, flat_step, flat_tokens};
ghost use Rattle.exports.specs.FlatMaps.{flat_reading};

use crate::flat::{FlatRefusal, form_number};
use crate::flat_mapping::FlatMapping;
use crate::flat_token::{FlatToken, state_number, state_of};
use line::mapping::Mapping;
use line::parser::Stepped;
use line::parser::tokens::{Tokens, count_tokens, token_at};
use line::reading::read_mapping;
use line::refusal::reading_outcome;

// A step of the walker: its answer, and where it goes on.
#[repr(C)]
#[derive(Clone, Copy)]
pub struct FlatStep {
    pub token: FlatToken,
    pub pos: usize,
    pub state: u8,
}

// The number of tokens of a line, and the last refusal.
#[repr(C)]
#[derive(Clone, Copy)]
pub struct FlatTokens {
    pub count: usize,
    pub last: FlatRefusal,
}

// A refused reading has the empty map.
#[repr(C)]
#[derive(Clone, Copy)]
pub struct FlatReading {
    pub refusal: FlatRefusal,
    pub map: FlatMapping,
}

impl From<Stepped> for FlatStep {
    ghost from_gives = { λ s f. f ≡ flat_step s };

    fn from(s: Stepped) -> FlatStep {
        FlatStep {
            token: s.answer.into(),
            pos: s.pos,
            state: state_number(s.state),
        }
    }
}

impl From<Tokens> for FlatTokens {
    ghost from_gives = { λ t f. f ≡ flat_tokens t };

    fn from(t: Tokens) -> FlatTokens {
        FlatTokens {
            count: t.count,
            last: t
                .last
                .map_or(FlatRefusal::NONE, |e| FlatRefusal::from(e.refusal())),
        }
    }
}

#[unsafe(no_mangle)]
pub extern "C" fn raspteal_parser_start(line: &[u8]) -> u8
    ensures { result ≡ state_number (start_of line.now) }
{
    state_number(line::parser::start_state(line))
}

#[unsafe(no_mangle)]
pub extern "C" fn raspteal_first_form(line: &[u8]) -> u8
    ensures { result ≡ first_form_number (first_form line.now) }
{
    line::parser::first_form(line).map_or(0, form_number)
}

#[unsafe(no_mangle)]
pub extern "C" fn raspteal_parser_step(line: &[u8], pos: usize, state: u8) -> FlatStep
    ensures { result ≡ flat_step (step_of line.now pos (state_in state)) }
{
    token_at(line, pos, state_of(state)).into()
}

#[unsafe(no_mangle)]
pub extern "C" fn raspteal_count_tokens(line: &[u8]) -> FlatTokens
    ensures { result ≡ flat_tokens (tokens_of line.now) }
{
    count_tokens(line).into()
}

#[unsafe(no_mangle)]
pub extern "C" fn raspteal_parse_sdl_mapping(
    line: &[u8],
    buttons: &[u32],
    axes: &[u32],
) -> FlatReading
    ensures { result ≡ flat_reading (reading_of line.now buttons.now axes.now) }
{
    let mut map = Mapping::new();
    let answer = read_mapping(&mut map, line, buttons, axes);
    let mut flat = FlatReading {
        refusal: reading_outcome(answer).into(),
        map: FlatMapping::empty(),
    };
    flat.map.lay_out(&map);
    flat
}

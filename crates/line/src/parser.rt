// The walker over one mapping line: a step from a position and a state to a token or a refusal, the next position and
// the next state.
mod pair;
pub mod tokens;
mod value;

ghost use Rattle.std.specs.Prelude.{◌≡◌, ◌≤◌, ◌<◌, ◌^◌, length};
ghost use Rattle.line.specs.Walker.{guid_of, uuid_step, field_step_of, start_of, step_of, first_form};
ghost use Rattle.line.specs.Walker as specs;
ghost use Rattle.text.specs.Bytes.{byte};
ghost use Rattle.line.specs.Fields.{find_from};
ghost use Rattle.line.specs.Inner.{refused_as};
ghost use Rattle.line.specs.Parser.{parser_of, step_from, moved};

use crate::ev::AxisOrBtn;
use crate::parser::pair::{cut_pair, read_pair};
use text::bytes::{find_byte, same_bytes};
use text::utf8::{is_utf8, valid_up_to};
use text::uuid::{Form, Spelled, Uuid};

#[derive(Clone, Copy, PartialEq, Eq)]
pub enum State {
    Uuid,
    Name,
    KeyVal,
    Invalid,
    // The line is not UTF-8.
    NotUtf8,
}

// The half of an axis that is meant.
#[derive(Clone, Copy, PartialEq, Eq)]
pub enum AxisRange {
    Full,
    UpperHalf,
    LowerHalf,
}

// What a pair says of the ranges; buttons and hats have a full input and no inversion.
#[derive(Clone, Copy, PartialEq, Eq)]
pub struct Ranges {
    pub input: AxisRange,
    pub output: AxisRange,
    pub inverted: bool,
}

impl Ranges {
    // Full on both sides and not inverted.
    pub const FULL: Ranges = Ranges {
        input: AxisRange::Full,
        output: AxisRange::Full,
        inverted: false,
    };
}

// A text is its start and length in the line. How the UUID is spelled, `first_form` tells.
#[derive(Clone, Copy, PartialEq, Eq)]
pub enum Token {
    Uuid(Uuid),
    Platform {
        start: usize,
        len: usize,
    },
    Name {
        start: usize,
        len: usize,
    },
    AxisMapping {
        from: u16,
        to: AxisOrBtn,
        ranges: Ranges,
    },
    ButtonMapping {
        from: u16,
        to: AxisOrBtn,
        ranges: Ranges,
    },
    HatMapping {
        hat: u16,
        direction: u16,
        to: AxisOrBtn,
        ranges: Ranges,
    },
}

#[derive(Clone, Copy, PartialEq, Eq)]
pub enum ErrorKind {
    InvalidGuid,
    InvalidKeyValPair,
    InvalidValue,
    EmptyValue,
    UnknownAxis,
    UnknownButton,
    InvalidParserState,
    UnexpectedEnd,
    NotUtf8,
}

#[derive(Clone, Copy, PartialEq, Eq)]
pub struct Error {
    pub kind: ErrorKind,
    pub position: usize,
}

#[derive(Clone, Copy, PartialEq, Eq)]
pub struct Stepped {
    pub answer: Option<Result<Token, Error>>,
    pub pos: usize,
    pub state: State,
}

// The walker: the line, a position and a state.
#[derive(Clone, Copy)]
pub struct Parser<'a> {
    pub data: &'a [u8],
    pub pos: usize,
    pub state: State,
}

impl<'a> Parser<'a> {
    // The walker before its first step.
    pub fn new(mapping: &'a [u8]) -> Parser<'a>
        ensures { result ≡ parser_of mapping.entry }
    {
        let state = start_state(mapping);
        Parser {
            data: mapping,
            pos: 0,
            state,
        }
    }

    // One step.
    pub fn next_token(&mut self) -> Option<Result<Token, Error>>
        ensures { (result ≡ (step_from self.old).answer) × (self.new ≡ moved self.old) }
    {
        let data = self.data;
        let pos = self.pos;
        let state = self.state;
        let next = step(data, pos, state);
        self.pos = next.pos;
        self.state = next.state;
        next.answer
    }
}

// The first answer of a walker that is made over a line.
pub fn first_token(line: &[u8]) -> Option<Result<Token, Error>>
    ensures { result ≡ (step_from (parser_of line.entry)).answer }
{
    let mut p = Parser::new(line);
    p.next_token()
}

// How the UUID of a line's first token is spelled: `xinput` is a form of its own.
pub fn first_form(line: &[u8]) -> Option<Form>
    ensures { result ≡ first_form line.now }
{
    if !is_utf8(line) {
        return None;
    }
    let end = find_byte(line, b',');
    if end == line.len() {
        return None;
    }
    Some(read_guid(&line[..end])?.form)
}

// The state of a walker that is made over a line.
pub fn start_state(line: &[u8]) -> State
    ensures { result ≡ start_of line.now }
{
    if is_utf8(line) {
        return State::Uuid;
    }
    State::NotUtf8
}

// One step of the walker, over plain values: `Parser`'s calls are thin ones over it, and the reading of a whole line
// takes the same steps without a `Parser`.
#[inline(always)]
pub fn step(line: &[u8], pos: usize, state: State) -> Stepped
    ensures { result ≡ step_of line.now pos state }
{
    if line.len() <= pos {
        return take_step(None, pos, state);
    }
    field_step(line, pos, state)
}

fn take_step(answer: Option<Result<Token, Error>>, pos: usize, state: State) -> Stepped
    ensures { result ≡ specs.stepped answer pos state }
{
    Stepped { answer, pos, state }
}

fn refused(kind: ErrorKind, position: usize) -> Option<Result<Token, Error>>
    ensures { result ≡ refused_as kind position }
{
    Some(Err(Error { kind, position }))
}

// Where the field at p ends: the place of the next comma, or the line's end.
fn field_end(line: &[u8], p: usize) -> usize
    requires { p ≤ length line.now }
    ensures is { result ≡ find_from (byte ",") line.now p }
    ensures within { (p ≤ result) × (result ≤ length line.now) }
{
    p + find_byte(&line[p..], b',')
}

// A step at p, before the line's end.
#[tactic(auto, unfolding(crate::specs::Walker::field_step_of))]
#[inline(always)]
fn field_step(line: &[u8], p: usize, state: State) -> Stepped
    requires { p < length line.now }
    ensures { result ≡ field_step_of line.now p (find_from (byte ",") line.now p) state }
{
    match state {
        State::Uuid => {
            let e = field_end(line, p);
            uuid_step(read_guid(&line[p..e]), p, e, line.len())
        }
        State::Name => {
            let e = field_end(line, p);
            let name = Token::Name {
                start: p,
                len: e - p,
            };
            take_step(Some(Ok(name)), e + 1, State::KeyVal)
        }
        State::KeyVal => {
            let rest = &line[p..];
            let pair = cut_pair(rest);
            let answer = read_pair(rest, pair, p);
            take_step(Some(answer), p + pair.len + 1, State::KeyVal)
        }
        State::Invalid => take_step(refused(ErrorKind::InvalidParserState, 0), p, State::Invalid),
        State::NotUtf8 => take_step(
            refused(ErrorKind::NotUtf8, valid_up_to(line)),
            p,
            State::NotUtf8,
        ),
    }
}

// The first field: `xinput` is the nil UUID. By `same_bytes`: `==` takes no array beside a slice, and
// `b"xinput".as_slice()` is no plainer.
#[tactic(auto, unfolding(crate::specs::Walker::guid_of))]
fn read_guid(s: &[u8]) -> Option<Spelled>
    ensures { result ≡ guid_of s.now }
{
    if same_bytes(s, b"xinput") {
        return Some(Spelled {
            id: Uuid::NIL,
            form: Form::Xinput,
        });
    }
    Uuid::parse_str(s)
}

// The step of the first field, which is from p to e of a line of n bytes.
fn uuid_step(id: Option<Spelled>, p: usize, e: usize, n: usize) -> Stepped
    requires { (e ≤ n) × (n < 2 ^ 63) }
    ensures { result ≡ uuid_step id p e n }
{
    match id {
        None => take_step(refused(ErrorKind::InvalidGuid, 0), p, State::Invalid),
        Some(u) => {
            if e == n {
                return take_step(refused(ErrorKind::UnexpectedEnd, 0), p, State::Invalid);
            }
            let uuid = u.id;
            take_step(Some(Ok(Token::Uuid(uuid))), e + 1, State::Name)
        }
    }
}

// The reading of a line: each pair's token asks for puts, and the map is made of them in line order.
mod draft;
mod puts;

ghost use Rattle.std.specs.Prelude.{◌≡◌};
ghost use Rattle.line.specs.Maps.{empty_map};
ghost use Rattle.line.specs.Reading.{skips, put_one, put_all, read_line, read_view, reading_of};
ghost use Rattle.line.specs.Inner.{draft_map, view_of, Padded, Turned, step_taken};

use crate::mapping::{Entry, Mapping};
use crate::parser::{Error, ErrorKind, State, Token, step};
use crate::reading::draft::Draft;
use crate::reading::puts::{Puts, puts_of};
use text::utf8::valid_up_to;

// The most codes of a list.
pub const LIST_MAX: usize = 1024;

#[derive(Clone, Copy, PartialEq, Eq)]
pub enum ParseSdlMappingError {
    UnknownHatDirection,
    ParseError(Error),
    TooManyCodes { position: usize },
    ListTooLong,
}

// A refused reading has the empty map: the rule is that it returns one, which a `Result` could not hand back.
#[derive(Clone, Copy)]
pub struct SdlMapping {
    pub answer: Result<(), ParseSdlMappingError>,
    pub map: Mapping,
}

// The map of a line by the pad's lists of codes. The two lists are the rule's own parameters, and nothing but these calls
// would make a struct of them.
pub fn parse_sdl_mapping(line: &[u8], buttons: &[u32], axes: &[u32]) -> SdlMapping
    ensures { result ≡ reading_of line.now buttons.now axes.now }
{
    let mut reading = SdlMapping {
        answer: Ok(()),
        map: Mapping::new(),
    };
    reading.answer = read_mapping(&mut reading.map, line, buttons, axes);
    reading
}

// The same into a map that is lent, which spares a caller the copy of 3 KB that a map handed back is. An empty line is
// read without the draft, whose 2 KB would be a fifth of its time.
pub fn read_mapping(
    map: &mut Mapping,
    line: &[u8],
    buttons: &[u32],
    axes: &[u32],
) -> Result<(), ParseSdlMappingError>
    ensures { reading_of line.now buttons.now axes.now ≡ record { answer = result; map = map.new } }
{
    *map = Mapping::new();
    if line.is_empty() && buttons.len() <= LIST_MAX && axes.len() <= LIST_MAX {
        return Ok(());
    }
    let mut draft = Draft::new();
    read(&mut draft, line, buttons, axes)?;
    draft.lay(map);
    Ok(())
}

// The reading into the empty draft: 10, 12, then line order. After a refusal the draft says nothing. Apart from its
// caller: where the draft is a local variable, a put looks at two numbers at a time, and that is slower.
#[inline(never)]
fn read(
    draft: &mut Draft,
    line: &[u8],
    buttons: &[u32],
    axes: &[u32],
) -> Result<(), ParseSdlMappingError>
    requires { draft_map draft.old ≡ empty_map }
    ensures { Turned (read_view line.now buttons.now axes.now) result (draft_map draft.new) }
{
    let run = valid_up_to(line);
    if run != line.len() {
        return Err(ParseSdlMappingError::ParseError(Error {
            kind: ErrorKind::NotUtf8,
            position: run,
        }));
    }
    if LIST_MAX < buttons.len() {
        return Err(ParseSdlMappingError::ListTooLong);
    }
    if LIST_MAX < axes.len() {
        return Err(ParseSdlMappingError::ListTooLong);
    }
    read_fields(draft, line, buttons, axes)
}

// The fields of a line, one step of the walker after the other. A loop that holds the place: each step says where the next
// one starts, so none is counted.
fn read_fields(
    draft: &mut Draft,
    line: &[u8],
    buttons: &[u32],
    axes: &[u32],
) -> Result<(), ParseSdlMappingError>
    requires { draft_map draft.old ≡ empty_map }
    ensures { Turned (read_line line.now buttons.now axes.now) result (draft_map draft.new) }
{
    let mut pos = 0;
    let mut state = State::Uuid;
    while pos < line.len() {
        let next = step(line, pos, state);
        take_answer(draft, next.answer, pos, next.pos, buttons, axes)?;
        pos = next.pos;
        state = next.state;
    }
    Ok(())
}

// What the walker answered at p, after which the line goes on at `after`.
#[tactic(auto, unfolding(crate::specs::Inner::step_taken, crate::specs::Reading::taken))]
fn take_answer(
    draft: &mut Draft,
    answer: Option<Result<Token, Error>>,
    p: usize,
    after: usize,
    buttons: &[u32],
    axes: &[u32],
) -> Result<(), ParseSdlMappingError>
    requires { Padded (draft_map draft.old) }
    ensures { Turned (step_taken (view_of (draft_map draft.old)) answer p after buttons.now axes.now) result
        (draft_map draft.new) }
{
    match answer {
        Some(Ok(token)) => put_all(draft, puts_of(token, after, buttons, axes), p),
        Some(Err(e)) if is_skipped(e.kind) => Ok(()),
        Some(Err(e)) => Err(ParseSdlMappingError::ParseError(e)),
        None => Ok(()),
    }
}

// An empty value is skipped.
fn is_skipped(kind: ErrorKind) -> bool
    ensures { result ≡ skips kind }
{
    matches!(kind, ErrorKind::EmptyValue)
}

// The puts of the field at p, then the hat flags.
#[tactic(auto, unfolding(crate::specs::Inner::draft_map))]
fn put_all(draft: &mut Draft, puts: Puts, p: usize) -> Result<(), ParseSdlMappingError>
    requires { Padded (draft_map draft.old) }
    ensures { Turned (put_all (view_of (draft_map draft.old)) puts p) result (draft_map draft.new) }
{
    match puts {
        Puts::Nothing => Ok(()),
        Puts::Name { start, len } => {
            draft.name_start = start;
            draft.name_len = len;
            Ok(())
        }
        Puts::One { entry, flags } => {
            put_one(draft, entry, p)?;
            draft.hats_mapped |= flags;
            Ok(())
        }
        Puts::Two {
            first,
            second,
            flags,
        } => {
            put_one(draft, first, p)?;
            put_one(draft, second, p)?;
            draft.hats_mapped |= flags;
            Ok(())
        }
        Puts::UnknownHatDirection => Err(ParseSdlMappingError::UnknownHatDirection),
    }
}

// A put by the pair at p: refused where the map is full. Inlined at its three calls: called, a line of hats takes a tenth
// more instructions.
#[inline(always)]
fn put_one(draft: &mut Draft, e: Entry, p: usize) -> Result<(), ParseSdlMappingError>
    requires { Padded (draft_map draft.old) }
    ensures { Turned (put_one (view_of (draft_map draft.old)) e p) result (draft_map draft.new) }
{
    let answer = draft.put(e);
    answer.map_err(|_| ParseSdlMappingError::TooManyCodes { position: p })
}

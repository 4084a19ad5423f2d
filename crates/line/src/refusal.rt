// A refusal as document 01 tells it: its number, its place, and the code that it carries.
ghost use Rattle.std.specs.Prelude.{◌≡◌};
ghost use Rattle.line.specs.Refusals.{refusal_at, refusal, refusal_of, error_refusal, full_refusal, put_outcome};
ghost use Rattle.line.specs.Kinds.{kind_number};
ghost use Rattle.line.specs.Refusals.{reading_refusal, reading_outcome};

use crate::ev::Code;
use crate::mapping::MapFull;
use crate::parser::{Error, ErrorKind};
use crate::reading::ParseSdlMappingError;

#[derive(Clone, Copy, PartialEq, Eq)]
pub struct Refusal {
    pub number: u8,
    pub place: Option<usize>,
    pub code: Option<Code>,
}

impl Refusal {
    // A refusal with a place.
    pub fn at(number: u8, place: usize) -> Refusal
        ensures { result ≡ refusal_at number place }
    {
        Refusal {
            number,
            place: Some(place),
            code: None,
        }
    }

    // A refusal without a place.
    pub fn plain(n: u8) -> Refusal
        ensures { result ≡ refusal n }
    {
        Refusal {
            number: n,
            place: None,
            code: None,
        }
    }

    // A refusal that carries a code.
    pub fn of_code(told: u8, code: Code) -> Refusal
        ensures { result ≡ refusal_of told code }
    {
        Refusal {
            number: told,
            place: None,
            code: Some(code),
        }
    }
}

impl From<ErrorKind> for u8 {
    ghost from_gives = { λ kind n. n ≡ kind_number kind };

    // The number of a kind.
    fn from(kind: ErrorKind) -> u8 {
        match kind {
            ErrorKind::InvalidGuid => 1,
            ErrorKind::UnexpectedEnd => 2,
            ErrorKind::InvalidKeyValPair => 3,
            ErrorKind::InvalidValue => 4,
            ErrorKind::UnknownAxis => 5,
            ErrorKind::UnknownButton => 6,
            ErrorKind::EmptyValue => 8,
            ErrorKind::InvalidParserState => 9,
            ErrorKind::NotUtf8 => 10,
        }
    }
}

impl Error {
    // A refusal of the walker.
    pub fn refusal(self) -> Refusal
        ensures { result ≡ error_refusal self }
    {
        Refusal::at(u8::from(self.kind), self.position)
    }
}

impl MapFull {
    // A put's refusal: 11, whose place is the pair's, known to the reading.
    pub fn refusal(self) -> Refusal
        ensures { result ≡ full_refusal self }
    {
        Refusal::plain(11)
    }
}

impl ParseSdlMappingError {
    // A refusal of a reading.
    pub fn refusal(self) -> Refusal
        ensures { result ≡ reading_refusal self }
    {
        match self {
            ParseSdlMappingError::ParseError(e) => e.refusal(),
            ParseSdlMappingError::UnknownHatDirection => Refusal::at(7, 0),
            ParseSdlMappingError::TooManyCodes { position } => Refusal::at(11, position),
            ParseSdlMappingError::ListTooLong => Refusal::plain(12),
        }
    }
}

// A put's answer.
pub fn put_outcome(answer: Result<(), MapFull>) -> Result<(), Refusal>
    ensures { result ≡ put_outcome answer }
{
    answer.map_err(|full| full.refusal())
}

// A reading's answer.
pub fn reading_outcome(answer: Result<(), ParseSdlMappingError>) -> Result<(), Refusal>
    ensures { result ≡ reading_outcome answer }
{
    answer.map_err(|error| error.refusal())
}

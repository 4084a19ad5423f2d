// Why a build or a default map is refused.
ghost use Rattle.std.specs.Prelude.{◌≡◌};
ghost use Rattle.map.specs.Refusals.{mapping_refusal, mapping_outcome};

use line::ev::Code;
use line::refusal::Refusal;

#[derive(Clone, Copy, PartialEq, Eq)]
pub enum MappingError {
    // The code of a filled slot is not in its list.
    InvalidCode(Code),
    // The name contains a comma.
    InvalidName,
    // The slot of `Button::Unknown` or `Axis::Unknown` is filled.
    UnknownElement,
    // The slot of an axis that no SDL name stands for is filled.
    NotSdl2Compatible,
    // The name is not UTF-8 from this place on.
    NotUtf8(usize),
    NameTooLong,
    ListTooLong,
    OutputTooShort,
}

impl MappingError {
    // Number, place and code of the refusal.
    pub fn refusal(self) -> Refusal
        ensures { result ≡ mapping_refusal self }
    {
        match self {
            MappingError::NotUtf8(place) => Refusal::at(10, place),
            MappingError::ListTooLong => Refusal::plain(12),
            MappingError::InvalidName => Refusal::plain(13),
            MappingError::UnknownElement => Refusal::plain(14),
            MappingError::InvalidCode(code) => Refusal::of_code(15, code),
            MappingError::NotSdl2Compatible => Refusal::plain(16),
            MappingError::NameTooLong => Refusal::plain(17),
            MappingError::OutputTooShort => Refusal::plain(18),
        }
    }
}

// The answer of a build or a default map, with the refusal's number, place and code.
pub fn mapping_outcome(answer: Result<(), MappingError>) -> Result<(), Refusal>
    ensures { result ≡ mapping_outcome answer }
{
    answer.map_err(MappingError::refusal)
}

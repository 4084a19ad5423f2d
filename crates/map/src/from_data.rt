// Build: the line and the map of the filled slots.
mod checks;
mod filled;
mod gather;
mod output;
mod puts;

ghost use Rattle.map.specs.Build.{Builds};

use crate::error::MappingError;
use crate::from_data::checks::checked;
use crate::from_data::filled::Pairs;
use crate::from_data::output::{put_line, too_short};
use crate::from_data::puts::put_map;
use crate::lists::Codes;
use crate::mapping_data::MappingData;
use line::mapping::Mapping;
use text::uuid::Uuid;

// The longest name, in bytes.
pub const NAME_MAX: usize = 8192;

// The place of the name in a line: after 32 digits and a comma.
const NAME_START: usize = 33;

// All 25 pairs: the idents, and of each `:b` or `:a`, four digits and a comma.
const PAIRS_MAX: usize = 143 + 25 * 7;

// The length of the longest line: an output of so many bytes is never too short.
pub const BUILT_MAX: usize = NAME_START + NAME_MAX + 1 + PAIRS_MAX;

// A refused build has the empty map and length 0, by document 01: "A refused reading, build, save or `default` returns
// the empty map, flags and lengths 0". A `Result` that holds the map would have none then.
#[derive(Clone, Copy)]
pub struct Built {
    pub answer: Result<(), MappingError>,
    pub map: Mapping,
    // The length of the line, which stands at the output's start.
    pub len: usize,
}

// Builds the line of the filled slots into the output, and their map. A refused build leaves the output as it is.
pub fn from_data(
    data: MappingData,
    buttons: &[u32],
    axes: &[u32],
    name: &[u8],
    uuid: Uuid,
    out: &mut [u8],
) -> Built
    ensures { Builds «data» buttons.now axes.now name.now uuid
        out.old result out.new }
{
    let mut built = Built {
        answer: Ok(()),
        map: Mapping::new(),
        len: 0,
    };
    let mut pairs = Pairs::new();
    match checked(&mut pairs, &data, Codes { buttons, axes }, name) {
        Err(e) => built.answer = Err(e),
        Ok(()) => {
            if too_short(out.len(), &pairs, name) {
                built.answer = Err(MappingError::OutputTooShort);
            } else {
                built.len = put_line(out, &pairs, name, uuid);
                put_map(&mut built.map, &pairs, name.len());
            }
        }
    }
    built
}

// The map of a line that is held, read with a pad's codes.
use desk::codes::Codes;
use desk::console::Console;
use desk::say::{ERR, Failure};
use desk_pads::excerpt::put_reading_refused;
use desk_pads::plugged::Plugged;
use desk_records::holding::near_line;
use desk_records::records::{LineKey, View};
use desk_records::wrong::complain_about;
use line::mapping::Mapping;
use line::reading::{SdlMapping, parse_sdl_mapping};

// A pad's codes, in the order by which lines count them.
#[derive(Clone, Copy)]
pub struct Lists {
    pub buttons: Codes,
    pub axes: Codes,
}

impl Lists {
    pub fn is_empty(&self) -> bool {
        self.buttons.is_empty() && self.axes.is_empty()
    }

    // The lists of a pad where there are none.
    pub fn or_of(self, pad: Plugged) -> Lists {
        Lists {
            buttons: or_else(self.buttons, pad.buttons),
            axes: or_else(self.axes, pad.axes),
        }
    }

    // Reads a line.
    pub fn read(&self, line: &[u8]) -> SdlMapping {
        parse_sdl_mapping(line, self.buttons.as_slice(), self.axes.as_slice())
    }
}

fn or_else(codes: Codes, others: Codes) -> Codes {
    if codes.is_empty() { others } else { codes }
}

// The map of a line. What is refused is said, of the argument `arg` where that is not empty.
pub fn map_of(
    console: &Console,
    line: &[u8],
    lists: &Lists,
    arg: &[u8],
) -> Result<Mapping, Failure> {
    let reading = lists.read(line);
    reading.answer.map_err(|e| {
        complain_about(console, arg);
        put_reading_refused(console, ERR, e, line)
    })?;
    Ok(reading.map)
}

// The map of the line that a party holds for a UUID.
pub fn held_map(
    console: &Console,
    store: View,
    key: LineKey,
    lists: &Lists,
    arg: &[u8],
) -> Result<Mapping, Failure> {
    map_of(console, near_line(console, store, key, arg)?, lists, arg)
}

// A map as a table.
use crate::elements::put_element;
use crate::excerpt::put_reading_refused;
use desk::console::Console;
use desk::fields::{first, section};
use desk::say::{ERR, Failure, OUT, put_value, say};
use desk::shown::say_shown;
use line::ev::AxisOrBtn;
use line::mapping::{Entry, Mapping};
use line::parser::{AxisRange, Ranges};
use line::reading::parse_sdl_mapping;

// Nothing where it is full.
fn say_half(console: &Console, half: AxisRange, side: &[u8]) {
    match half {
        AxisRange::Full => return,
        AxisRange::UpperHalf => say(console, b", upper half "),
        AxisRange::LowerHalf => say(console, b", lower half "),
    }
    say(console, side);
}

// `RightTrigger2 (righttrigger), upper half in, inverted`
pub fn say_bound(console: &Console, element: AxisOrBtn, ranges: Ranges) {
    put_element(console, OUT, element);
    say_half(console, ranges.input, b"in");
    say_half(console, ranges.output, b"out");
    if ranges.inverted {
        say(console, b", inverted");
    }
    say(console, b"\n");
}

// `30002  RightTrigger2 (righttrigger), upper half in, inverted`
fn say_entry(console: &Console, entry: &Entry) {
    let code = entry.code.0;
    put_value(console, OUT, format_args!("{code:x}  "));
    say_bound(console, entry.element, entry.ranges);
}

// The entries, then name, hat flags and default flag.
pub fn say_map(console: &Console, map: &Mapping, line: &[u8]) {
    for entry in first(&map.entries, map.count) {
        say_entry(console, entry);
    }
    say(console, b"name '");
    say_shown(console, section(line, map.name_start, map.name_len));
    let flags = map.hats_mapped;
    let default = if map.is_default { "on" } else { "off" };
    put_value(
        console,
        OUT,
        format_args!("', hat flags {flags}, default {default}\n"),
    );
}

// Reads a line, and prints its map.
pub fn say_reading(
    console: &Console,
    line: &[u8],
    buttons: &[u32],
    axes: &[u32],
) -> Result<(), Failure> {
    let reading = parse_sdl_mapping(line, buttons, axes);
    reading
        .answer
        .map_err(|e| put_reading_refused(console, ERR, e, line))?;
    say_map(console, &reading.map, line);
    Ok(())
}

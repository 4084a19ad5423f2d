// Prints the table of key codes that the map layer holds: the button number of each code from 10100 to 102ff, or 0, one
// a line. It works each number out from document 01's two button rules, and does not read the table.
#![tactic(auto)]

ghost use Rattle.std.specs.Prelude.{◌≡◌};
ghost use Rattle.map.specs.Keys.{key_number};

use std::io;
use std::io::{BufWriter, Write};

// The codes of the table: from the first on, up to the last.
const FIRST: u32 = 0x10100;

const LAST: u32 = 0x102ff;

// "Button k of 1..15: 10130 + k - 1. Button k of 16..19: 10220 + k - 16." A byte, 0 for no button: so the table has it.
fn button_by_rule(code: u32) -> u8
    ensures { result ≡ key_number code }
{
    match code {
        0x10130..=0x1013e => (code - 0x10130 + 1) as u8,
        0x10220..=0x10223 => (code - 0x10220 + 16) as u8,
        _ => 0,
    }
}

fn main(rt: HostRuntime) -> io::Result<()> {
    let mut out = BufWriter::new(rt.alloc(), io::writer(&rt))?;
    for code in FIRST..=LAST {
        let number = button_by_rule(code);
        writeln!(out, "{number}")?;
    }
    out.flush()
}

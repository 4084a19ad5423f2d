// A raw value of a code put into a pad.
ghost use Rattle.std.specs.Prelude.{◌≡◌, ◌≤◌, ◌<◌};
ghost use Rattle.pad.specs.ValueClaims.{RawWithin};
ghost use Rattle.pad.specs.Inner.{PutsCode, holding};

use crate::choice::{first_entry, held_place};
use crate::events::Raw;
use crate::numbers::held_number;
use crate::state::{HELD_MAX, Pad, TooManyCodes};
use crate::telling::Change;
use crate::values::{codes, rows, value_of};
use line::ev::Code;

// The change of the code's element, if it has one. A 257th code is refused, and nothing is changed.
pub fn put_code(pad: &mut Pad, code: Code, raw: Raw) -> Result<Option<Change>, TooManyCodes>
    ensures told { PutsCode pad.old code raw result pad.new }
    ensures within { RawWithin raw }
{
    let x = held_number(code, raw);
    let held = codes(pad);
    let n = held.len();
    let i = held_place(held, code);
    if i == HELD_MAX {
        return Err(TooManyCodes);
    }
    match first_entry(rows(pad), code) {
        Some(e) => {
            let element = e.element;
            let before = value_of(pad, element);
            hold(pad, n, i, x);
            let later = value_of(pad, element);
            Ok(Some(Change {
                element,
                before,
                later,
            }))
        }
        None => {
            hold(pad, n, i, x);
            Ok(None)
        }
    }
}

// A number put at place i of the n held ones, or after them.
fn hold(pad: &mut Pad, n: usize, i: usize, x: u64)
    requires { (i < 256) × (i ≤ n) × (n ≤ 256) }
    ensures { pad.new ≡ holding pad.old n i x }
{
    pad.held[i] = x;
    pad.count = n.max(i + 1);
}

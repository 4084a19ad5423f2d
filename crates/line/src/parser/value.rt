// The value of a pair: `a`N, `+a`N, `-a`N, each with an optional last `~`, `b`N, or `h`H.D.
ghost use Rattle.std.specs.Prelude.{◌≡◌, ◌+◌, ◌<◌, ◌^◌, length};
ghost use Rattle.line.specs.Values.{axis_value_of, axis_numbered, signed_of, button_value_of, hat_of, value_of};
ghost use Rattle.text.specs.Decimal.{index_number};

use crate::parser::AxisRange;
use text::bytes::find_byte;
use text::decimal::parse_u16;

#[derive(Clone, Copy)]
pub enum Value {
    Axis {
        from: u16,
        input: AxisRange,
        inverted: bool,
    },
    Button {
        from: u16,
    },
    Hat {
        hat: u16,
        direction: u16,
    },
}

// The value of the pair at p, by its first byte, or the place at which it is refused.
#[inline(always)]
#[tactic(auto, unfolding(crate::specs::Values::value_of))]
pub fn read_value(v: &[u8], p: usize) -> Result<Value, usize>
    requires { p + length v.now < 2 ^ 64 }
    ensures { result ≡ value_of p v.now }
{
    match v {
        [b'a', rest @ ..] => axis_value(rest, p, AxisRange::Full),
        [b'+', rest @ ..] => signed_value(rest, p, AxisRange::UpperHalf),
        [b'-', rest @ ..] => signed_value(rest, p, AxisRange::LowerHalf),
        [b'b', rest @ ..] => button_value(rest, p),
        [b'h', rest @ ..] => hat_value(rest, p),
        _ => Err(p),
    }
}

// What follows the `a`: a last `~` inverts and is cut off.
#[tactic(auto, unfolding(crate::specs::Values::axis_value_of))]
fn axis_value(s: &[u8], p: usize, input: AxisRange) -> Result<Value, usize>
    ensures { result ≡ axis_value_of p input s.now }
{
    match s {
        [digits @ .., b'~'] => axis_number(digits, p, input, true),
        _ => axis_number(s, p, input, false),
    }
}

fn axis_number(digits: &[u8], p: usize, input: AxisRange, inverted: bool) -> Result<Value, usize>
    ensures { result ≡ axis_numbered p input inverted (index_number digits.now) }
{
    let from = parse_u16(digits).ok_or(p)?;
    Ok(Value::Axis {
        from,
        input,
        inverted,
    })
}

// What follows the sign of `+a`N and `-a`N.
#[tactic(auto, unfolding(crate::specs::Values::signed_of))]
fn signed_value(s: &[u8], p: usize, half: AxisRange) -> Result<Value, usize>
    ensures { result ≡ signed_of p half s.now }
{
    match s {
        [b'a', rest @ ..] => axis_value(rest, p, half),
        _ => Err(p),
    }
}

fn button_value(s: &[u8], p: usize) -> Result<Value, usize>
    ensures { result ≡ button_value_of p (index_number s.now) }
{
    let from = parse_u16(s).ok_or(p)?;
    Ok(Value::Button { from })
}

// What follows the `h`, cut at the first dot. The dot's place is that in the value, of which the `h` is the first byte.
#[tactic(auto, using(text::proofs::BytesLaws::first_le), unfolding(crate::specs::Values::hat_of))]
fn hat_value(s: &[u8], p: usize) -> Result<Value, usize>
    requires { p + length s.now + 1 < 2 ^ 64 }
    ensures { result ≡ hat_of p s.now }
{
    let dot = find_byte(s, b'.');
    if dot == s.len() {
        return Err(p);
    }
    let hat = parse_u16(&s[..dot]).ok_or(p + 1)?;
    let direction = parse_u16(&s[dot + 1..]).ok_or(p + (dot + 1) + 1)?;
    Ok(Value::Hat { hat, direction })
}

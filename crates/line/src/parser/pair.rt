// A pair of a key and a value: the checks in their order, and the token.
ghost use Rattle.std.specs.Prelude.{◌≡◌, ◌+◌, ◌<◌, ◌^◌, length, take};
ghost use Rattle.text.specs.Bytes.{ascii, same};
ghost use Rattle.line.specs.Inner.{CutAt};
ghost use Rattle.line.specs.Pairs.{half_of, skip_of, mapped_of, keyed_of, pair_of};

use crate::ev::AxisOrBtn;
use crate::parser::value::{Value, read_value};
use crate::parser::{AxisRange, Error, ErrorKind, Ranges, Token};
use crate::tables::find_element;
use text::bytes::same_bytes;

// A pair as it is cut: how long it is, how many colons it has, and where the last of them stands.
#[derive(Clone, Copy)]
pub struct Cut {
    pub len: usize,
    pub colons: usize,
    pub colon: usize,
}

impl Cut {
    // Before the first byte.
    pub const NONE: Cut = Cut {
        len: 0,
        colons: 0,
        colon: 0,
    };
}

// The pair at the front of a text, up to a comma or the end. One pass finds comma and colon: where each had its own, the
// processor guessed wrong at the end of each, and a reading took 7 % more.
pub fn cut_pair(s: &[u8]) -> Cut
    ensures { CutAt s.now result }
{
    let mut pair = Cut::NONE;
    for &b in s {
        if b == b',' {
            return pair;
        }
        if b == b':' {
            pair.colons += 1;
            pair.colon = pair.len;
        }
        pair.len += 1;
    }
    pair
}

// The pair that starts at p of the line and is the front of a text: cut at its one colon.
#[inline(always)]
#[tactic(auto, using(crate::proofs::CutLaws::cut_within, crate::proofs::CutLaws::colon_within, crate::proofs::CutLaws::pair_at_colon, crate::proofs::CutLaws::pair_refused))]
pub fn read_pair(s: &[u8], pair: Cut, p: usize) -> Result<Token, Error>
    requires within { p + length s.now < 2 ^ 64 }
    requires is { CutAt s.now pair }
    ensures { result ≡ pair_of (take pair.len s.now) p }
{
    if pair.colons != 1 {
        return Err(Error {
            kind: ErrorKind::InvalidKeyValPair,
            position: p,
        });
    }
    let after = pair.colon + 1;
    keyed(&s[..pair.colon], &s[after..pair.len], p, p + after)
}

// A key and its value, which stands at place `at` of the line.
#[inline(always)]
#[tactic(auto, using(crate::proofs::CountLaws::skip_le), unfolding(crate::specs::Pairs::keyed_of))]
fn keyed(key: &[u8], value: &[u8], p: usize, at: usize) -> Result<Token, Error>
    requires { p + length value.now < 2 ^ 64 }
    ensures { result ≡ keyed_of key.now value.now p at }
{
    let len = value.len();
    if len == 0 {
        return Err(Error {
            kind: ErrorKind::EmptyValue,
            position: p,
        });
    }
    if is_platform(key) {
        return Ok(Token::Platform { start: at, len });
    }
    let output = key_half(key);
    let to = find_element(&key[sign_len(output)..]);
    mapped(read_value(value, p), output, to, p)
}

// A key is `platform` as it stands, before a sign is cut off. By `same_bytes`, as `xinput` is compared.
fn is_platform(key: &[u8]) -> bool
    ensures { result ≡ same key.now (ascii "platform") }
{
    same_bytes(key, b"platform")
}

// The output half that a key's sign sets.
#[tactic(auto, unfolding(crate::specs::Pairs::half_of))]
fn key_half(key: &[u8]) -> AxisRange
    ensures { result ≡ half_of key.now }
{
    match key {
        [b'+', ..] => AxisRange::UpperHalf,
        [b'-', ..] => AxisRange::LowerHalf,
        _ => AxisRange::Full,
    }
}

// How many bytes of the key the sign has.
fn sign_len(half: AxisRange) -> usize
    ensures { result ≡ skip_of half }
{
    match half {
        AxisRange::UpperHalf | AxisRange::LowerHalf => 1,
        AxisRange::Full => 0,
    }
}

// The last checks of a pair at p: the value, then the key.
#[inline(always)]
fn mapped(
    value: Result<Value, usize>,
    output: AxisRange,
    to: Option<AxisOrBtn>,
    p: usize,
) -> Result<Token, Error>
    ensures { result ≡ mapped_of value output to p }
{
    let refusal = |kind| Error { kind, position: p };
    let halved = Ranges {
        output,
        ..Ranges::FULL
    };
    match value.map_err(|position| Error {
        kind: ErrorKind::InvalidValue,
        position,
    })? {
        Value::Axis {
            from,
            input,
            inverted,
        } => Ok(Token::AxisMapping {
            from,
            to: to.ok_or(refusal(ErrorKind::UnknownAxis))?,
            ranges: Ranges {
                input,
                output,
                inverted,
            },
        }),
        Value::Button { from } => Ok(Token::ButtonMapping {
            from,
            to: to.ok_or(refusal(ErrorKind::UnknownButton))?,
            ranges: halved,
        }),
        Value::Hat { hat, direction } => Ok(Token::HatMapping {
            hat,
            direction,
            to: to.ok_or(refusal(ErrorKind::UnknownButton))?,
            ranges: halved,
        }),
    }
}

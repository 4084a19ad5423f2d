// UUIDs: the four forms that are read, and the 32 digits that are written.
ghost use Rattle.std.specs.Prelude.{◌≡◌, ℕ, ◌≤◌, ◌<◌, ◌^◌, ◌-◌, ◌+◌, length};
ghost use Rattle.text.specs.Uuid.{hex_digit, read_hex, joined, simple, first_groups, last_groups, hyphenated, uuid_of};
ghost use Rattle.text.specs.Uuid.{lower_digit, hex_text, uuid_text, without_checksum};
ghost use Rattle.text.specs.Inner.{after, Put};
ghost use Rattle.text.specs.Bytes.{written, Wrote};

use crate::bytes::fits;

// A UUID: its first eight bytes and its last eight, high byte first. repr(C): C programs hold the same struct.
#[repr(C)]
#[derive(Clone, Copy, PartialEq, Eq, PartialOrd, Ord)]
pub struct Uuid {
    pub high: u64,
    pub low: u64,
}

// How a UUID is spelled: 32 digits, with hyphens, with hyphens in braces, after `urn:uuid:`. `Xinput` is the word of
// that name in the first field of a line, which the walker takes for the UUID of zeros.
#[derive(Clone, Copy, PartialEq, Eq)]
pub enum Form {
    Simple,
    Hyphenated,
    Braced,
    Urn,
    Xinput,
}

// A UUID, and how it was spelled.
#[derive(Clone, Copy, PartialEq, Eq)]
pub struct Spelled {
    pub id: Uuid,
    pub form: Form,
}

// The value of a hexadecimal digit.
#[tactic(auto, unfolding(crate::specs::Uuid::hex_digit))]
fn hex_digit(b: u8) -> Option<u8>
    ensures { result ≡ hex_digit b }
{
    match b {
        b'0'..=b'9' => Some(b - b'0'),
        b'A'..=b'F' => Some(b - b'A' + 10),
        b'a'..=b'f' => Some(b - b'a' + 10),
        _ => None,
    }
}

// The digits of `s` after those that made `first`.
fn hex_more(first: u64, s: &[u8]) -> Option<u64>
    requires { (length s.now ≤ 16) × (first < 16 ^ (16 - length s.now)) }
    ensures { result ≡ read_hex first s.now }
{
    let mut value = first;
    for &b in s {
        value = value * 16 + hex_digit(b)? as u64;
    }
    Some(value)
}

// The digits of `s` after those of `h`.
fn hex_then(h: Option<u64>, s: &[u8]) -> Option<u64>
    requires { (length s.now ≤ 16) × ((v : ℕ) → h ≡ Some v → v < 16 ^ (16 - length s.now)) }
    ensures { result ≡ after h s.now }
{
    hex_more(h?, s)
}

// A UUID of its two halves, in that form.
fn join_halves(form: Form, high: Option<u64>, low: Option<u64>) -> Option<Spelled>
    ensures { result ≡ joined form high low }
{
    let id = Uuid {
        high: high?,
        low: low?,
    };
    Some(Spelled { id, form })
}

// 32 digits.
fn simple_uuid(s: &[u8]) -> Option<Spelled>
    requires { length s.now ≡ 32 }
    ensures { result ≡ simple s.now }
{
    let high = hex_more(0, &s[0..16]);
    let low = hex_more(0, &s[16..]);
    join_halves(Form::Simple, high, low)
}

// The first three groups of digits: 8, 4 and 4. That `s` has 36 bytes is said at three functions: `&[u8; 36]` would say
// it too, but a part of a text is a slice, and would have to be turned into an array first.
fn first_groups(s: &[u8]) -> Option<u64>
    requires { length s.now ≡ 36 }
    ensures { result ≡ read_hex 0 (first_groups s.now) }
{
    let a = hex_more(0, &s[0..8]);
    let b = hex_then(a, &s[9..13]);
    hex_then(b, &s[14..18])
}

// The last two groups of digits: 4 and 12.
fn last_groups(s: &[u8]) -> Option<u64>
    requires { length s.now ≡ 36 }
    ensures { result ≡ read_hex 0 (last_groups s.now) }
{
    let a = hex_more(0, &s[19..23]);
    hex_then(a, &s[24..36])
}

// 8, 4, 4, 4 and 12 digits with hyphens between; `form`: what stands around them.
#[tactic(auto, unfolding(crate::specs::Uuid::hyphenated))]
fn hyphenated_uuid(form: Form, s: &[u8]) -> Option<Spelled>
    requires { length s.now ≡ 36 }
    ensures { result ≡ hyphenated form s.now }
{
    if s[8] != b'-' || s[13] != b'-' || s[18] != b'-' || s[23] != b'-' {
        return None;
    }
    let high = first_groups(s);
    let low = last_groups(s);
    join_halves(form, high, low)
}

// A lower-case hexadecimal digit.
fn lower_digit(d: u8) -> u8
    requires { d < 16 }
    ensures { result ≡ lower_digit d }
{
    if d < 10 {
        return b'0' + d;
    }
    b'a' + (d - 10)
}

// Writes the last sixteen hexadecimal digits of `n` at `at`, from the last to the first.
fn put_half(out: &mut [u8], at: usize, n: u64)
    requires { at + 16 ≤ length out.old }
    ensures { out.new ≡ written out.old at (hex_text 16 n) }
{
    let mut rest = n;
    // By place, as the promise tells the whole buffer with the digits in it.
    for i in (0..16).rev() {
        out[at + i] = lower_digit((rest % 16) as u8);
        rest /= 16;
    }
}

// Writes the 32 digits at `at`, and returns the place after the last.
fn put_simple(out: &mut [u8], at: usize, id: Uuid) -> usize
    requires { at + 32 ≤ length out.old }
    ensures { Put out.old at (uuid_text id) result out.new }
{
    put_half(out, at, id.high);
    put_half(out, at + 16, id.low);
    at + 32
}

impl Uuid {
    // The UUID of zeros.
    pub const NIL: Uuid = Uuid { high: 0, low: 0 };

    // The UUID that a text is, in any of the four forms.
    #[tactic(auto, unfolding(crate::specs::Uuid::uuid_of))]
    pub fn parse_str(s: &[u8]) -> Option<Spelled>
        ensures { result ≡ uuid_of s.now }
    {
        match s.len() {
            32 => simple_uuid(s),
            36 => hyphenated_uuid(Form::Hyphenated, s),
            38 if s[0] == b'{' && s[37] == b'}' => hyphenated_uuid(Form::Braced, &s[1..37]),
            45 if s.starts_with(b"urn:uuid:") => hyphenated_uuid(Form::Urn, &s[9..]),
            _ => None,
        }
    }

    // The same UUID with bytes 2 and 3, counted from 0, zero: recent SDL releases put a checksum there.
    pub fn without_checksum(self) -> Uuid
        ensures { result ≡ without_checksum self }
    {
        Uuid {
            high: 0x1000000000000 * (self.high / 0x1000000000000) + self.high % 0x100000000,
            low: self.low,
        }
    }

    // Writes the 32 lower-case digits at `at`, and returns the place after the last; `None` where the buffer is too short,
    // which is left as it is.
    pub fn write_simple(self, out: &mut [u8], at: usize) -> Option<usize>
        ensures { Wrote out.old at (uuid_text self) result out.new }
    {
        if fits(out.len(), at, 32) {
            return Some(put_simple(out, at, self));
        }
        None
    }
}

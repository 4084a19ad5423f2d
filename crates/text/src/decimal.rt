// Index numbers in base ten: the reader and the writer.
ghost use Rattle.std.specs.Prelude.{◌≡◌, ◌+◌, ◌≤◌, length};
ghost use Rattle.text.specs.Bytes.{Wrote};
ghost use Rattle.text.specs.Decimal.{decimal, index_number, unsigned};
ghost use Rattle.text.specs.Inner.{Put};

use crate::bytes::fits;

// One or more digits.
#[tactic(auto, unfolding(crate::specs::Decimal::unsigned, crate::specs::Decimal::read_digits))]
fn parse_unsigned(s: &[u8]) -> Option<u16>
    ensures { result ≡ unsigned s.now }
{
    if s.is_empty() {
        return None;
    }
    let mut value: u16 = 0;
    for &b in s {
        if !b.is_ascii_digit() {
            return None;
        }
        value = value.checked_mul(10)?.checked_add((b - b'0') as u16)?;
    }
    Some(value)
}

// The index number that a text is, at most 65535.
pub fn parse_u16(s: &[u8]) -> Option<u16>
    ensures { result ≡ index_number s.now }
{
    parse_unsigned(s.strip_prefix(b"+").unwrap_or(s))
}

// How many digits `n` has in base ten.
pub fn index_len(n: usize) -> usize
    ensures { result ≡ length (decimal n) }
{
    n.checked_ilog10().map_or(1, |d| d as usize + 1)
}

// Writes `n` at `at`, its last digit first, and returns the place after the last digit.
fn put_index(out: &mut [u8], at: usize, n: usize) -> usize
    requires { at + length (decimal n) ≤ length out.old }
    ensures { Put out.old at (decimal n) result out.new }
{
    let end = at + index_len(n);
    let mut upper = n;
    // By place: where the loop begins is the end that is handed back.
    for place in (at..end).rev() {
        out[place] = b'0' + (upper % 10) as u8;
        upper /= 10;
    }
    end
}

// Writes `n` in base ten at `at`, and returns the place after its last digit; `None` where the buffer is too short, which
// is left as it is.
pub fn write_index(out: &mut [u8], at: usize, n: usize) -> Option<usize>
    ensures { Wrote out.old at (decimal n) result out.new }
{
    if fits(out.len(), at, index_len(n)) {
        return Some(put_index(out, at, n));
    }
    None
}

// UTF-8 by the ABNF of RFC 3629, section 4.
ghost use Rattle.std.specs.Prelude.{◌≡◌, [], ◌∷◌, ◌≤◌, length, replicate};
ghost use Rattle.text.specs.Utf8.{%x, in_range, utf8_tail, utf8_3, utf8_4, begins, first_length, char_length};
ghost use Rattle.text.specs.Utf8.{valid_run, is_utf8};
ghost use Rattle.text.specs.Inner.{Passed};

use crate::search::passed_end;

// Whether the byte is from `low` to `high`.
fn in_range(b: u8, low: u8, high: u8) -> bool
    ensures { result ≡ in_range (%x low high) b }
{
    low <= b && b <= high
}

// The bytes begin with one from `low` to `high`.
#[tactic(auto, using(crate::proofs::Utf8Laws::begins_one, crate::proofs::Utf8Laws::begins_nothing))]
fn begins_in(s: &[u8], low: u8, high: u8) -> bool
    ensures { result ≡ begins (%x low high ∷ []) s.now }
{
    match s {
        [b, ..] => in_range(*b, low, high),
        [] => false,
    }
}

// The bytes begin with `n` of UTF8-tail.
fn begins_tails(s: &[u8], n: usize) -> bool
    ensures { result ≡ begins (replicate n utf8_tail) s.now }
{
    n <= s.len() && s[..n].iter().all(|b| in_range(*b, 0x80, 0xBF))
}

// The bytes begin with one from `low` to `high`, one from `low2` to `high2`, and `n` of UTF8-tail.
#[tactic(auto, using(crate::proofs::Utf8Laws::begins_two, crate::proofs::Utf8Laws::begins_short))]
fn begins_with(s: &[u8], low: u8, high: u8, low2: u8, high2: u8, n: usize) -> bool
    ensures { result ≡ begins (%x low high ∷ %x low2 high2 ∷ replicate n utf8_tail) s.now }
{
    match s {
        [a, b, tails @ ..] => in_range(*a, low, high)
            && in_range(*b, low2, high2)
            && begins_tails(tails, n),
        _ => false,
    }
}

// 3 where `s` begins with a character of UTF8-3.
#[tactic(auto, unfolding(crate::specs::Utf8::first_length))]
fn three_octets(s: &[u8]) -> Option<usize>
    ensures { result ≡ first_length utf8_3 s.now }
{
    (begins_with(s, 0xE0, 0xE0, 0xA0, 0xBF, 1)
        || begins_with(s, 0xE1, 0xEC, 0x80, 0xBF, 1)
        || begins_with(s, 0xED, 0xED, 0x80, 0x9F, 1)
        || begins_with(s, 0xEE, 0xEF, 0x80, 0xBF, 1)).then_some(3)
}

// 4 where `s` begins with a character of UTF8-4.
#[tactic(auto, unfolding(crate::specs::Utf8::first_length))]
fn four_octets(s: &[u8]) -> Option<usize>
    ensures { result ≡ first_length utf8_4 s.now }
{
    (begins_with(s, 0xF0, 0xF0, 0x90, 0xBF, 2)
        || begins_with(s, 0xF1, 0xF3, 0x80, 0xBF, 2)
        || begins_with(s, 0xF4, 0xF4, 0x80, 0x8F, 2)).then_some(4)
}

// The length of the character that `s` begins with. A call for each alternative: one `match` on slices and ranges in
// the place of all was tried, and its proof didn't close.
#[tactic(auto, unfolding(crate::specs::Utf8::first_length, crate::specs::Utf8::char_length))]
fn char_length(s: &[u8]) -> Option<usize>
    ensures { result ≡ char_length s.now }
{
    if begins_in(s, 0x00, 0x7F) {
        return Some(1);
    }
    if begins_with(s, 0xC2, 0xDF, 0x80, 0xBF, 0) {
        return Some(2);
    }
    three_octets(s).or_else(|| four_octets(s))
}

// The first place from `from` on that has no ASCII byte, or the end.
fn ascii_end(s: &[u8], from: usize) -> usize
    requires { from ≤ length s.now }
    ensures { Passed s.now from result }
{
    from + passed_end(&s[from..], |byte| byte < 0x80)
}

// The length of the longest run of whole characters from the first byte on. A loop that holds the place: each character
// says how far the next step goes, so nothing is counted.
pub fn valid_up_to(s: &[u8]) -> usize
    ensures { result ≡ valid_run s.now }
{
    let mut at = ascii_end(s, 0);
    while let Some(n) = char_length(&s[at..]) {
        at = ascii_end(s, at + n);
    }
    at
}

// Whether the whole is UTF-8.
pub fn is_utf8(s: &[u8]) -> bool
    ensures { result ≡ is_utf8 s.now }
{
    valid_up_to(s) == s.len()
}

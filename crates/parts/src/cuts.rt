// Parts of a text: words, what stands before and after a byte, the first elements.
ghost use Rattle.std.specs.Prelude.{◌≡◌, ◌==◌, take, drop, count_by};
ghost use Rattle.parts.specs.Cuts.{before_of, after_of, word_of, rest_of, has_no_case};

use text::bytes::find_byte;

// The first elements, or all where there are fewer.
pub fn first<T>(s: &[T], n: usize) -> &[T]
    ensures { result.now ≡ take n s.now }
{
    s.get(..n).unwrap_or(s)
}

// The elements after the first `n`, or none.
pub fn past<T>(s: &[T], n: usize) -> &[T]
    ensures { result.now ≡ drop n s.now }
{
    s.get(n..).unwrap_or(&s[..0])
}

// What stands before the first `b`, or all.
pub fn before(s: &[u8], b: u8) -> &[u8]
    ensures { result.now ≡ before_of b s.now }
{
    first(s, find_byte(s, b))
}

// What stands after the first `b`, or nothing.
pub fn after(s: &[u8], b: u8) -> &[u8]
    ensures { result.now ≡ after_of b s.now }
{
    past(past(s, find_byte(s, b)), 1)
}

// What stands before the first space, or all.
pub fn word(s: &[u8]) -> &[u8]
    ensures { result.now ≡ word_of s.now }
{
    before(s, b' ')
}

// What stands after the first space, or nothing.
pub fn rest(s: &[u8]) -> &[u8]
    ensures { result.now ≡ rest_of s.now }
{
    after(s, b' ')
}

// How many bytes are `b`.
pub fn count_of(s: &[u8], b: u8) -> usize
    ensures { result ≡ count_by (λ c. c == b) s.now }
{
    s.iter().filter(|c| **c == b).count()
}

// Whether a line has no case: it is empty, or a comment.
pub fn is_blank(line: &[u8]) -> bool
    ensures { result ≡ has_no_case line.now }
{
    matches!(line.first(), None | Some(b'#'))
}

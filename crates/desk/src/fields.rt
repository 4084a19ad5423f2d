// Parts of a text: before and after a byte, the part at a place, the first bytes. The crate parts has some of the same
// (before, after, first): it serves the test programs, and the hub does not rest on it.
ghost use Rattle.std.specs.Prelude.{◌≤◌, length};

// What stands before the first `b`, and what stands after it; None where there is none.
fn split_once(s: &[u8], b: u8) -> Option<(&[u8], &[u8])> {
    let n = s.iter().position(|x| *x == b)?;
    Some((&s[..n], &s[n + 1..]))
}

// What stands before the first `b`, or all.
pub fn before(s: &[u8], b: u8) -> &[u8] {
    split_once(s, b).map_or(s, |(start, _)| start)
}

// What stands after the first `b`, or nothing.
pub fn after(s: &[u8], b: u8) -> &[u8] {
    split_once(s, b).map_or(&[], |(_, rest)| rest)
}

// The first of them, or all where there are fewer.
pub fn first<T>(s: &[T], len: usize) -> &[T]
    ensures { length result.now ≤ length s.now }
{
    s.get(..len).unwrap_or(s)
}

// What stands from `at` on, or nothing.
fn from<T>(s: &[T], at: usize) -> &[T] {
    s.get(at..).unwrap_or(&[])
}

// Those `len` from `at` on, as far as there are any.
pub fn section<T>(s: &[T], at: usize, len: usize) -> &[T] {
    first(from(s, at), len)
}

// The part that starts at `at` and ends before the next `b`. It goes by a place, and not by an iterator over the parts:
// a mark under a line is put at a place.
pub fn part_at(s: &[u8], at: usize, b: u8) -> &[u8] {
    before(from(s, at), b)
}

// Part `n` of those that end at a `b`, from 0 on; nothing past the last.
pub fn nth_part(s: &[u8], n: usize, b: u8) -> &[u8] {
    s.split(|x| *x == b).nth(n).unwrap_or(&[])
}

// A text without one `b` at its end.
pub fn without(s: &[u8], b: u8) -> &[u8] {
    s.strip_suffix(&[b]).unwrap_or(s)
}

// A line without its LF, and one CR before that.
pub fn bare(s: &[u8]) -> &[u8] {
    s.strip_suffix(b"\n").map_or(s, |line| without(line, b'\r'))
}

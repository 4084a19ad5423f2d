// The lines of an inserted text: where one ends, and whether it is wanted.
ghost use Rattle.std.specs.Prelude.{◌≡◌, ◌≤◌, length, take};
ghost use Rattle.text.specs.Bytes.{first_of};
ghost use Rattle.store.specs.Lines.{for_platform, wanted as isWanted};
ghost use Rattle.text.specs.Search.{lf};
ghost use Rattle.store.specs.Inner.{first_line};

use text::bytes::find_byte;
use text::search::{find_far, find_text};
use text::uuid::{Spelled, Uuid};

// The length of the first line, of which the LF stands at that place: without a CR before it.
pub fn line_length(s: &[u8], end: usize) -> usize
    requires { end ≡ first_of lf s.now }
    ensures { (result ≤ length s.now) × (take result s.now ≡ first_line s.now) }
{
    if s.len() <= end {
        return s.len();
    }
    let line = &s[..end];
    line.strip_suffix(b"\r").unwrap_or(line).len()
}

// Whether the first `platform:` anywhere in a line, if any, is followed by exactly `Linux` up to a comma or the end.
fn for_platform(line: &[u8]) -> bool
    ensures { result ≡ for_platform line.now }
{
    let key = b"platform:";
    let at = find_text(line, key, 7);
    if at == line.len() {
        return true;
    }
    let start = at + key.len();
    let end = find_byte(&line[start..], b',');
    line[start..start + end] == b"Linux"[..]
}

// The UUID of a wanted line; None where the line is not wanted.
pub fn wanted(line: &[u8]) -> Option<Spelled>
    ensures { result ≡ isWanted line.now }
{
    if !for_platform(line) {
        return None;
    }
    let end = find_far(line, b',');
    Uuid::parse_str(&line[0..end])
}

// Cases of the text layer.
use parts::cuts::{rest, word};
use parts::numbers::{number, unhex};
use text::bytes::fits;
use text::decimal::{index_len, parse_u16, write_index};
use text::utf8::{is_utf8, valid_up_to};
use text::uuid::Uuid;

// `utf8 RUN BYTES`: the length of the longest valid run, the bytes in hexadecimal.
pub fn utf8_case(args: &[u8]) -> bool {
    let mut space = [0u8; 64];
    let n = unhex(rest(args), &mut space);
    let bytes = &space[..n];
    let run = valid_up_to(bytes);
    run == number(word(args)) && is_utf8(bytes) == (run == n)
}

fn same_digits(id: Uuid, digits: &[u8]) -> bool {
    let mut out = [0u8; 32];
    id.write_simple(&mut out, 0);
    out.as_slice() == digits
}

// `uuid DIGITS TEXT`: the 32 digits of the UUID that the text is, or `no`.
pub fn uuid_case(args: &[u8]) -> bool {
    match Uuid::parse_str(rest(args)) {
        Some(spelled) => same_digits(spelled.id, word(args)),
        None => matches!(word(args), b"no"),
    }
}

// `index NUMBER TEXT`: the index number that the text is, or `no`.
pub fn index_case(args: &[u8]) -> bool {
    match parse_u16(rest(args)) {
        Some(n) => n as usize == number(word(args)),
        None => matches!(word(args), b"no"),
    }
}

// Whether a writer of `len` bytes at `at` says rightly where it stopped, in a buffer of 40 bytes.
fn right_end(end: Option<usize>, at: usize, len: usize) -> bool {
    match end {
        Some(next) => fits(40, at, len) && next == at.saturating_add(len),
        None => !fits(40, at, len),
    }
}

// `put-index AT NUMBER BUFFER`: a buffer of 40 dots after the number was written there.
pub fn put_index_case(args: &[u8]) -> bool {
    let at = number(word(args));
    let more = rest(args);
    let n = number(word(more));
    let mut out = [b'.'; 40];
    let end = write_index(&mut out, at, n);
    right_end(end, at, index_len(n)) && out.as_slice() == rest(more)
}

// `put-uuid AT TEXT BUFFER`: a buffer of 40 dots after the UUID was written there.
pub fn put_uuid_case(args: &[u8]) -> bool {
    let at = number(word(args));
    let more = rest(args);
    let Some(spelled) = Uuid::parse_str(word(more)) else {
        return false;
    };
    let mut out = [b'.'; 40];
    let end = spelled.id.write_simple(&mut out, at);
    right_end(end, at, 32) && out.as_slice() == rest(more)
}

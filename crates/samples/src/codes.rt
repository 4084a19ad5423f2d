// Lists of codes.
use parts::cuts::{before, first};
use parts::numbers::{number, numbered};
use std::alloc::{AllocError, Global};

// The number that hexadecimal digits spell, modulo 2^32; what is no digit counts as 0.
pub fn hex_number(s: &[u8]) -> u32 {
    s.iter().fold(0, |n, b| n << 4 | char::from(*b).to_digit(16).unwrap_or(0))
}

// The list that a word spells: `10130,10131`; `#5` is the codes 1 to 5, `-` none.
pub fn codes_of(alloc: Global, s: &[u8]) -> Result<Vec<u32>, AllocError> {
    let mut codes = Vec::new(alloc);
    match s {
        [b'#', count @ ..] => codes.extend_from_slice(first(&numbered(), number(count)))?,
        [b'-', ..] => {}
        _ => {
            for code in s.split_inclusive(|b| *b == b',') {
                codes.push(hex_number(before(code, b',')))?;
            }
        }
    }
    Ok(codes)
}

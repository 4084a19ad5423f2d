// The text that a case spells: parts between `|`, each as it stands, or `@7`, the 32 digits of the UUID 7, or `\0D0A`,
// those bytes, or `*9n`, nine times that byte; and UUIDs and large numbers in words.
use parts::cuts::before;
use parts::numbers::{number, unhex, uuid_or};
use std::alloc::{AllocError, Global};
use text::uuid::Uuid;

const ROOM: usize = 262144;

// The UUID in a word: 32 digits, or a number, which is its value.
pub fn uuid(s: &[u8]) -> Uuid {
    let small = Uuid {
        high: 0,
        low: number(s) as u64,
    };
    uuid_or(s, small)
}

// A length, a place or a share in a word; `most` is the largest number that a machine word holds.
pub fn large(s: &[u8]) -> Option<usize> {
    match s {
        b"most" => Some(usize::MAX),
        _ => decimal(s),
    }
}

// The same, 0 where it is none.
pub fn big(s: &[u8]) -> usize {
    large(s).unwrap_or(0)
}

fn decimal(s: &[u8]) -> Option<usize> {
    str::from_utf8(s).ok()?.parse().ok()
}

// The owner in a word, as the store's records hold it: a byte.
pub fn owner(s: &[u8]) -> u8 {
    (number(s) % 256) as u8
}

// One part.
fn put_part(out: &mut Vec<u8>, part: &[u8]) -> Result<(), AllocError> {
    match part {
        [b'@', id @ ..] => {
            let mut digits = [0u8; 32];
            uuid(id).write_simple(&mut digits, 0);
            out.extend_from_slice(&digits)
        }
        [b'\\', digits @ ..] => {
            let mut space = [0u8; 512];
            let n = unhex(digits, &mut space);
            out.extend_from_slice(&space[..n])
        }
        [b'*'] => Ok(()),
        [b'*', count @ .., b] => {
            for _ in 0..number(count) {
                out.push(*b)?;
            }
            Ok(())
        }
        _ => out.extend_from_slice(part),
    }
}

// The bytes of a text, at most 262144.
pub fn spelled(alloc: Global, s: &[u8]) -> Result<Vec<u8>, AllocError> {
    let mut out = Vec::new(alloc);
    for part in s.split_inclusive(|b| *b == b'|') {
        put_part(&mut out, before(part, b'|'))?;
    }
    out.truncate(ROOM);
    Ok(out)
}

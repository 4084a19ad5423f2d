// Bytes in a buffer: moved, set to 0, compared with 0, and as numbers.
ghost use Rattle.std.specs.Prelude.{◌≡◌, ◌++◌, ◌+◌, ◌-◌, ◌≤◌, ◌<◌, length, drop, replicate};
ghost use Rattle.text.specs.Bytes.{written};
ghost use Rattle.store.specs.Decode.{zeroes, word, word4, word8};
ghost use Rattle.store.specs.Inner.{be2, be4, be8};

// Moves all bytes but the first `gap` down to the front; the last `gap` stay as they are.
pub fn move_down(part: &mut [u8], gap: usize)
    requires { gap ≤ length part.old }
    ensures { part.new
        ≡ drop gap part.old ++ drop (length part.old - gap) part.old }
{
    part.copy_within(gap.., 0);
}

// Whether every byte is 0. It goes on behind a byte that is not: so the processor takes many bytes at once.
pub fn all_zero(s: &[u8]) -> bool
    ensures { result ≡ zeroes s.now }
{
    s.iter().fold(true, |zero, byte| zero & (*byte == 0))
}

// Sets the bytes from one place up to another to 0; none where the other is not behind it.
pub fn zero_between(s: &mut [u8], from: usize, to: usize)
    requires { (from ≤ length s.old) × (to ≤ length s.old) }
    ensures { s.new ≡ written s.old from (replicate (to - from) 0) }
{
    if from < to {
        s[from..to].fill(0);
    }
}

// The numbers in the two, four and eight bytes at k, high byte first.
pub fn word_at(s: &[u8], k: usize) -> usize
    requires { k + 1 < length s.now }
    ensures { (result ≡ word s.now k) × (result < 65536) }
{
    usize::from(u16::from_be_bytes([s[k], s[k + 1]]))
}

pub fn u32_at(s: &[u8], k: usize) -> u32
    requires { k + 4 ≤ length s.now }
    ensures { result ≡ word4 s.now k }
{
    u32::from_be_bytes([s[k], s[k + 1], s[k + 2], s[k + 3]])
}

pub fn u64_at(s: &[u8], k: usize) -> u64
    requires { k + 8 ≤ length s.now }
    ensures { result ≡ word8 s.now k }
{
    u64::from_be_bytes([
        s[k],
        s[k + 1],
        s[k + 2],
        s[k + 3],
        s[k + 4],
        s[k + 5],
        s[k + 6],
        s[k + 7],
    ])
}

// Writes a number into the two, four and eight bytes at k, high byte first; two bytes are the last two of the number.
pub fn put_word(to: &mut [u8], k: usize, x: usize)
    requires { k + 2 ≤ length to.old }
    ensures { to.new ≡ written to.old k (be2 x) }
{
    to[k..k + 2].copy_from_slice(&((x % 65536) as u16).to_be_bytes());
}

pub fn put_u32(to: &mut [u8], k: usize, x: u32)
    requires { k + 4 ≤ length to.old }
    ensures { to.new ≡ written to.old k (be4 x) }
{
    to[k..k + 4].copy_from_slice(&x.to_be_bytes());
}

pub fn put_u64(to: &mut [u8], k: usize, x: u64)
    requires { k + 8 ≤ length to.old }
    ensures { to.new ≡ written to.old k (be8 x) }
{
    to[k..k + 8].copy_from_slice(&x.to_be_bytes());
}

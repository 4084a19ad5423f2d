// Byte strings: compared, searched, and written into a lent buffer.
ghost use Rattle.std.specs.Prelude.{◌≡◌, ◌+◌, ◌≤◌, length};
ghost use Rattle.text.specs.Bytes.{same, first_of, fits_at, Wrote};
ghost use Rattle.text.specs.Inner.{Put};

// Whether the two have the same bytes.
pub fn same_bytes(a: &[u8], b: &[u8]) -> bool
    ensures { result ≡ same a.now b.now }
{
    a == b
}

// The place of the first `b`, or the length where there is none: a C program is answered so, and a field of a line ends
// there.
pub fn find_byte(s: &[u8], b: u8) -> usize
    ensures { result ≡ first_of b s.now }
{
    s.iter().position(|x| *x == b).unwrap_or(s.len())
}

// Whether `len` bytes fit from `at` on into a buffer of `room` bytes.
pub fn fits(room: usize, at: usize, len: usize) -> bool
    ensures { result ≡ fits_at room at len }
{
    if room < at {
        return false;
    }
    len <= room - at
}

// Copies `v` to `at`, and returns the place after its last byte.
fn put_bytes(out: &mut [u8], at: usize, v: &[u8]) -> usize
    requires { at + length v.now ≤ length out.old }
    ensures { Put out.old at v.now result out.new }
{
    let end = at + v.len();
    out[at..end].copy_from_slice(v);
    end
}

// Writes `v` at `at`, and returns the place after its last byte; `None` where the buffer is too short, which is left as
// it is.
pub fn write_bytes(out: &mut [u8], at: usize, v: &[u8]) -> Option<usize>
    ensures { Wrote out.old at v.now result out.new }
{
    if fits(out.len(), at, v.len()) {
        return Some(put_bytes(out, at, v));
    }
    None
}

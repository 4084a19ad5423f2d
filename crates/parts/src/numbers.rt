// Numbers, bytes and UUIDs as a case spells them.
ghost use Rattle.std.specs.Prelude.{◌≡◌, ◌/◌, ◌*◌, take, drop, min, length, ◌++◌};
ghost use Rattle.std.specs.List.{range_with_len};
ghost use Rattle.hex.specs.Hex.{decode_sized};
ghost use Rattle.text.specs.declared.uuid.Uuid.{Uuid};
ghost use Rattle.parts.specs.Numbers.{number_in, uuid_or_other, Unhexed};

use text::decimal::parse_u16;
use text::uuid::Uuid;

// How many codes a list has at most, in a case.
pub const LONGEST: usize = 1025;

// The number in a word, or 65535 where it is none. No Option: some fifty calls would each say what a word that is none
// counts as.
pub fn short(s: &[u8]) -> u16
    ensures { result ≡ number_in s.now }
{
    parse_u16(s).unwrap_or(65535)
}

pub fn number(s: &[u8]) -> usize
    ensures { result ≡ number_in s.now }
{
    short(s) as usize
}

// The UUID in a word, or `other` where it is none.
pub fn uuid_or(s: &[u8], other: Uuid) -> Uuid
    ensures { result ≡ uuid_or_other s.now other }
{
    Uuid::parse_str(s).map_or(other, |spelled| spelled.id)
}

// Puts the bytes that hexadecimal digits spell into `out`, as many as fit, and returns how many there are. Of other
// characters it puts nothing. It returns no slice: that was tried, and where a part of `out` is handed back, a contract
// can't say what stands behind that part.
pub fn unhex(s: &[u8], out: &mut [u8]) -> usize
    ensures count { result ≡ min (length out.old) (length s.now / 2) }
    ensures bytes { Unhexed s.now out.old result out.new }
{
    let n = out.len().min(s.len() / 2);
    let _ = hex::decode_to_slice(&s[..2 * n], &mut out[..n]);
    n
}

// The codes 1 to 1025.
pub fn numbered() -> [u32; LONGEST]
    ensures { result ≡ range_with_len 1 1025 }
{
    std::array::from_fn(|i| i as u32 + 1)
}

// The buttons 10130 to 1014F and the axes 30000 to 3000F, which a list of a case has where it names none.
pub const BUTTON_CODES: [u32; 32] = [
    0x10130, 0x10131, 0x10132, 0x10133, 0x10134, 0x10135, 0x10136, 0x10137, 0x10138, 0x10139,
    0x1013A, 0x1013B, 0x1013C, 0x1013D, 0x1013E, 0x1013F, 0x10140, 0x10141, 0x10142, 0x10143,
    0x10144, 0x10145, 0x10146, 0x10147, 0x10148, 0x10149, 0x1014A, 0x1014B, 0x1014C, 0x1014D,
    0x1014E, 0x1014F,
];

pub const AXIS_CODES: [u32; 16] = [
    0x30000, 0x30001, 0x30002, 0x30003, 0x30004, 0x30005, 0x30006, 0x30007, 0x30008, 0x30009,
    0x3000A, 0x3000B, 0x3000C, 0x3000D, 0x3000E, 0x3000F,
];

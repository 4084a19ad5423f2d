// The calls of the text layer.
ghost use Rattle.std.specs.Prelude.{◌≡◌, length};
ghost use Rattle.text.specs.Bytes.{same, first_of, fits_at, write_answer, write_buffer};
ghost use Rattle.text.specs.Utf8.{valid_run, is_utf8};
ghost use Rattle.text.specs.Uuid.{uuid_of, uuid_text, without_checksum};
ghost use Rattle.text.specs.Decimal.{index_number, decimal};
ghost use Rattle.exports.specs.Flat.{flat_written, flat_uuid_parse, flat_index_parse};

use crate::flat::{FlatWritten, form_number};
use text::uuid::{Spelled, Uuid};

#[repr(C)]
#[derive(Clone, Copy)]
pub struct FlatUuidParse {
    pub valid: bool,
    pub id: Uuid,
    pub form: u8,
}

// The number that a text is, if it is one: C's struct, as FlatWritten is.
#[repr(C)]
#[derive(Clone, Copy)]
pub struct FlatIndexParse {
    pub valid: bool,
    pub number: u16,
}

#[unsafe(no_mangle)]
pub extern "C" fn raspteal_same_bytes(a: &[u8], b: &[u8]) -> bool
    ensures { result ≡ same a.now b.now }
{
    text::bytes::same_bytes(a, b)
}

#[unsafe(no_mangle)]
pub extern "C" fn raspteal_write_bytes(out: &mut [u8], at: usize, v: &[u8]) -> FlatWritten
    ensures value { result ≡ flat_written (write_answer out.old at v.now) }
    ensures out_after { out.new ≡ write_buffer out.old at v.now }
{
    text::bytes::write_bytes(out, at, v).into()
}

#[unsafe(no_mangle)]
pub extern "C" fn raspteal_valid_up_to(s: &[u8]) -> usize
    ensures { result ≡ valid_run s.now }
{
    text::utf8::valid_up_to(s)
}

#[unsafe(no_mangle)]
pub extern "C" fn raspteal_is_utf8(s: &[u8]) -> bool
    ensures { result ≡ is_utf8 s.now }
{
    text::utf8::is_utf8(s)
}

#[unsafe(no_mangle)]
pub extern "C" fn raspteal_uuid_parse_str(s: &[u8]) -> FlatUuidParse
    ensures { result ≡ flat_uuid_parse (uuid_of s.now) }
{
    Uuid::parse_str(s).into()
}

impl From<Option<Spelled>> for FlatUuidParse {
    ghost from_gives = { λ p f. f ≡ flat_uuid_parse p };

    fn from(parsed: Option<Spelled>) -> FlatUuidParse {
        match parsed {
            Some(spelled) => FlatUuidParse {
                valid: true,
                id: spelled.id,
                form: form_number(spelled.form),
            },
            None => FlatUuidParse {
                valid: false,
                id: Uuid::NIL,
                form: 0,
            },
        }
    }
}

#[unsafe(no_mangle)]
pub extern "C" fn raspteal_uuid_write_simple(id: Uuid, out: &mut [u8], at: usize) -> FlatWritten
    ensures value { result ≡ flat_written (write_answer out.old at (uuid_text id)) }
    ensures out_after { out.new ≡ write_buffer out.old at (uuid_text id) }
{
    id.write_simple(out, at).into()
}

#[unsafe(no_mangle)]
pub extern "C" fn raspteal_uuid_without_checksum(id: Uuid) -> Uuid
    ensures { result ≡ without_checksum id }
{
    id.without_checksum()
}

#[unsafe(no_mangle)]
pub extern "C" fn raspteal_parse_u16(s: &[u8]) -> FlatIndexParse
    ensures { result ≡ flat_index_parse (index_number s.now) }
{
    text::decimal::parse_u16(s).into()
}

impl From<Option<u16>> for FlatIndexParse {
    ghost from_gives = { λ p f. f ≡ flat_index_parse p };

    fn from(parsed: Option<u16>) -> FlatIndexParse {
        FlatIndexParse {
            valid: parsed.is_some(),
            number: parsed.unwrap_or(0),
        }
    }
}

#[unsafe(no_mangle)]
pub extern "C" fn raspteal_index_len(n: usize) -> usize
    ensures { result ≡ length (decimal n) }
{
    text::decimal::index_len(n)
}

#[unsafe(no_mangle)]
pub extern "C" fn raspteal_write_index(out: &mut [u8], at: usize, n: usize) -> FlatWritten
    ensures value { result ≡ flat_written (write_answer out.old at (decimal n)) }
    ensures out_after { out.new ≡ write_buffer out.old at (decimal n) }
{
    text::decimal::write_index(out, at, n).into()
}

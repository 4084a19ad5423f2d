// The calls of the store that also try a UUID without its checksum.
ghost use Rattle.std.specs.Prelude.{◌≡◌};
ghost use Rattle.text.specs.Bytes.{write_answer, write_buffer};
ghost use Rattle.store.specs.Near.{near_up, near_says, near_line};
ghost use Rattle.exports.specs.Flat.{flat_written};
ghost use Rattle.exports.specs.FlatNear.{near_how, flat_near_look};
ghost use Rattle.exports.specs.FlatStore.{party_in};

use crate::flat::{FlatRefusal, FlatWritten};
use crate::flat_party::FlatParty;
use store::calls::LookError;
use store::near::Nearness;
use store::refusal::near_outcome;
use text::bytes::write_bytes;
use text::uuid::Uuid;

// What is held, or 19 or 24: 0 nothing, 1 a line under the whole UUID, 2 one under that without its checksum alone.
#[repr(C)]
#[derive(Clone, Copy)]
pub struct FlatNearLook {
    pub refusal: FlatRefusal,
    pub how: u8,
}

// The number that C knows what was found by: C has no Option, and each kind has its own numbers, as `form_number` says.
fn near_how(looked: Result<Option<Nearness>, LookError>) -> u8
    ensures { result ≡ near_how looked }
{
    match looked {
        Ok(Some(Nearness::Exact)) => 1,
        Ok(Some(Nearness::Near)) => 2,
        Ok(None) | Err(_) => 0,
    }
}

impl From<Result<Option<Nearness>, LookError>> for FlatNearLook {
    ghost from_gives = { λ l f. f ≡ flat_near_look l };

    fn from(looked: Result<Option<Nearness>, LookError>) -> FlatNearLook {
        FlatNearLook {
            refusal: near_outcome(looked).into(),
            how: near_how(looked),
        }
    }
}

#[unsafe(no_mangle)]
pub extern "C" fn raspteal_store_found_near(
    index: &[u8],
    text: &[u8],
    party: FlatParty,
    id: Uuid,
) -> FlatNearLook
    ensures { result ≡ flat_near_look (near_says (near_up (party_in party) id index.now text.now)) }
{
    store::near::found_near(index, text, party.into(), id).into()
}

// A reference can't be returned to C: the line is copied to the start of `out`. C calls this and `raspteal_store_get`
// each by its name: what they share is the last line.
#[unsafe(no_mangle)]
pub extern "C" fn raspteal_store_get_near(
    index: &[u8],
    text: &[u8],
    party: FlatParty,
    id: Uuid,
    out: &mut [u8],
) -> FlatWritten
    ensures value { result ≡ flat_written (write_answer out.old 0 (near_line (near_up (party_in party) id index.now text.now))) }
    ensures out_after { out.new ≡ write_buffer out.old 0 (near_line (near_up (party_in party) id index.now text.now)) }
{
    let line = store::near::get_near(index, text, party.into(), id);
    write_bytes(out, 0, line).into()
}

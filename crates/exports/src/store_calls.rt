// The calls of the store.
ghost use Rattle.std.specs.Prelude.{◌≡◌};
ghost use Rattle.text.specs.Bytes.{write_answer, write_buffer};
ghost use Rattle.store.specs.Store.{store_clear, store_insert, look_up, says_of, line_of};
ghost use Rattle.store.specs.Saves.{save_args, store_save};
ghost use Rattle.store.specs.Removing.{store_remove};
ghost use Rattle.exports.specs.Flat.{flat_written};
ghost use Rattle.exports.specs.FlatSlots.{data_in};
ghost use Rattle.exports.specs.FlatStore.{party_in, flat_store_answer, flat_inserted, flat_look, flat_saved};

use crate::flat::{FlatRefusal, FlatWritten};
use crate::flat_data::FlatData;
use crate::flat_mapping::FlatMapping;
use crate::flat_party::FlatParty;
use store::calls::{Inserted, LookError, Saved};
use store::refusal::{look_outcome, save_outcome, store_outcome};
use text::bytes::write_bytes;
use text::uuid::Uuid;

// An insert's refusal, the lines walked, and how many of them were filed in another form than 32 digits.
#[repr(C)]
#[derive(Clone, Copy)]
pub struct FlatInserted {
    pub refusal: FlatRefusal,
    pub count: usize,
    pub not_simple: usize,
}

// A refused save has the empty map.
#[repr(C)]
#[derive(Clone, Copy)]
pub struct FlatSaved {
    pub refusal: FlatRefusal,
    pub map: FlatMapping,
}

// Whether a line is held, or was until it was taken out; or 19 or 24.
#[repr(C)]
#[derive(Clone, Copy)]
pub struct FlatLook {
    pub refusal: FlatRefusal,
    pub found: bool,
}

impl From<Inserted> for FlatInserted {
    ghost from_gives = { λ i f. f ≡ flat_inserted i };

    fn from(i: Inserted) -> FlatInserted {
        FlatInserted {
            refusal: store_outcome(i.answer).into(),
            count: i.count,
            not_simple: i.not_simple,
        }
    }
}

impl From<Result<bool, LookError>> for FlatLook {
    ghost from_gives = { λ l f. f ≡ flat_look l };

    fn from(looked: Result<bool, LookError>) -> FlatLook {
        FlatLook {
            refusal: look_outcome(looked).map(|_| ()).into(),
            found: looked.unwrap_or(false),
        }
    }
}

impl From<Saved> for FlatSaved {
    ghost from_gives = { λ s f. f ≡ flat_saved s };

    fn from(s: Saved) -> FlatSaved {
        FlatSaved {
            refusal: save_outcome(s.answer).into(),
            map: s.map.into(),
        }
    }
}

#[unsafe(no_mangle)]
pub extern "C" fn raspteal_store_clear(index: &mut [u8], text: &mut [u8]) -> FlatRefusal
    ensures value { result ≡ flat_store_answer (store_clear index.old text.old).answer }
    ensures index_after { index.new ≡ (store_clear index.old text.old).index }
    ensures text_after { text.new ≡ (store_clear index.old text.old).text }
{
    store_outcome(store::calls::clear(index, text)).into()
}

#[unsafe(no_mangle)]
pub extern "C" fn raspteal_store_insert(
    index: &mut [u8],
    text: &mut [u8],
    party: FlatParty,
    lines: &[u8],
) -> FlatInserted
    ensures value { result ≡ flat_inserted (store_insert index.old text.old (party_in party) lines.now).answer }
    ensures index_after { index.new ≡ (store_insert index.old text.old (party_in party) lines.now).index }
    ensures text_after { text.new ≡ (store_insert index.old text.old (party_in party) lines.now).text }
{
    store::calls::insert(index, text, party.into(), lines).into()
}

#[unsafe(no_mangle)]
pub extern "C" fn raspteal_store_save(
    index: &mut [u8],
    text: &mut [u8],
    party: FlatParty,
    data: FlatData,
    buttons: &[u32],
    axes: &[u32],
    name: &[u8],
    id: Uuid,
) -> FlatSaved
    ensures value { result ≡ flat_saved (store_save index.old text.old (party_in party) (save_args (data_in «data») buttons.now axes.now name.now id)).answer }
    ensures index_after { index.new ≡ (store_save index.old text.old (party_in party) (save_args (data_in «data») buttons.now axes.now name.now id)).index }
    ensures text_after { text.new ≡ (store_save index.old text.old (party_in party) (save_args (data_in «data») buttons.now axes.now name.now id)).text }
{
    store::calls::save(
        index,
        text,
        party.into(),
        data.into(),
        buttons,
        axes,
        name,
        id,
    )
    .into()
}

#[unsafe(no_mangle)]
pub extern "C" fn raspteal_store_remove(
    index: &mut [u8],
    text: &mut [u8],
    party: FlatParty,
    id: Uuid,
) -> FlatLook
    ensures value { result ≡ flat_look (store_remove index.old text.old (party_in party) id).answer }
    ensures index_after { index.new ≡ (store_remove index.old text.old (party_in party) id).index }
    ensures text_after { text.new ≡ (store_remove index.old text.old (party_in party) id).text }
{
    store::removing::remove(index, text, party.into(), id).into()
}

#[unsafe(no_mangle)]
pub extern "C" fn raspteal_store_found(
    index: &[u8],
    text: &[u8],
    party: FlatParty,
    id: Uuid,
) -> FlatLook
    ensures { result ≡ flat_look (says_of (look_up (party_in party) id index.now text.now)) }
{
    store::calls::found(index, text, party.into(), id).into()
}

// A reference can't be returned to C: the line is copied to the start of `out`.
#[unsafe(no_mangle)]
pub extern "C" fn raspteal_store_get(
    index: &[u8],
    text: &[u8],
    party: FlatParty,
    id: Uuid,
    out: &mut [u8],
) -> FlatWritten
    ensures value { result ≡ flat_written (write_answer out.old 0 (line_of (look_up (party_in party) id index.now text.now))) }
    ensures out_after { out.new ≡ write_buffer out.old 0 (line_of (look_up (party_in party) id index.now text.now)) }
{
    let line = store::calls::get(index, text, party.into(), id);
    write_bytes(out, 0, line).into()
}

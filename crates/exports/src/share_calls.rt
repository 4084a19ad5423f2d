// The calls of the store that set and tell a party's share of the text.
ghost use Rattle.std.specs.Prelude.{◌≡◌};
ghost use Rattle.store.specs.Store.{store_share, store_told};
ghost use Rattle.exports.specs.FlatStore.{flat_store_answer};
ghost use Rattle.exports.specs.FlatShares.{flat_share};

use crate::flat::FlatRefusal;
use store::refusal::{store_outcome, told_outcome};
use store::sharing::{ShareUse, Unsound};

// A party's share and the bytes of its lines, or 19.
#[repr(C)]
#[derive(Clone, Copy)]
pub struct FlatShare {
    pub refusal: FlatRefusal,
    pub share: usize,
    pub used: usize,
}

impl From<Result<ShareUse, Unsound>> for FlatShare {
    ghost from_gives = { λ t f. f ≡ flat_share t };

    fn from(told: Result<ShareUse, Unsound>) -> FlatShare {
        let nothing = ShareUse { share: 0, used: 0 };
        let shown = told.unwrap_or(nothing);
        FlatShare {
            refusal: told_outcome(told).into(),
            share: shown.share,
            used: shown.used,
        }
    }
}

#[unsafe(no_mangle)]
pub extern "C" fn raspteal_store_set_share(
    index: &mut [u8],
    text: &[u8],
    owner: u8,
    bytes: usize,
) -> FlatRefusal
    ensures value { result ≡ flat_store_answer (store_share index.old text.now owner bytes).answer }
    ensures index_after { index.new ≡ (store_share index.old text.now owner bytes).index }
{
    store_outcome(store::sharing::set_share(index, text, owner, bytes)).into()
}

#[unsafe(no_mangle)]
pub extern "C" fn raspteal_store_share(index: &[u8], text: &[u8], owner: u8) -> FlatShare
    ensures { result ≡ flat_share (store_told index.now text.now owner) }
{
    store::sharing::share_of(index, text, owner).into()
}

// Number, place and code of each refusal of the store, and what each call's answer comes to.
ghost use Rattle.std.specs.Prelude.{◌≡◌};
ghost use Rattle.store.specs.Refusals.{store_refusal, save_refusal, look_refusal, unsound_refusal};
ghost use Rattle.store.specs.Refusals.{store_outcome, save_outcome, look_outcome, told_outcome};
ghost use Rattle.store.specs.Near.{near_outcome};

use crate::calls::{LookError, SaveError, StoreError};
use crate::near::Nearness;
use crate::sharing::{ShareUse, Unsound};
use line::refusal::Refusal;

impl StoreError {
    // A refusal of a clear, an insert or a share's setting.
    pub fn refusal(self) -> Refusal
        ensures { result ≡ store_refusal self }
    {
        match self {
            StoreError::NotUtf8(place) => Refusal::at(10, place),
            StoreError::Unsound => Refusal::plain(19),
            StoreError::LineTooLong => Refusal::plain(20),
            StoreError::NoRoom => Refusal::plain(21),
            StoreError::BufferTooLarge => Refusal::plain(23),
            StoreError::NoOwner => Refusal::plain(24),
            StoreError::NoText => Refusal::plain(25),
            StoreError::ShareTooLarge => Refusal::plain(26),
        }
    }
}

impl SaveError {
    // A refusal of a save.
    pub fn refusal(self) -> Refusal
        ensures { result ≡ save_refusal self }
    {
        match self {
            SaveError::Refused(e) => e.refusal(),
            SaveError::UnsavedName => Refusal::plain(22),
            SaveError::Unsound => Refusal::plain(19),
            SaveError::NoRoom => Refusal::plain(21),
            SaveError::NoOwner => Refusal::plain(24),
            SaveError::NoText => Refusal::plain(25),
        }
    }
}

impl LookError {
    // A refusal of a look-up, also of one that takes a UUID without its checksum.
    pub fn refusal(self) -> Refusal
        ensures { result ≡ look_refusal self }
    {
        match self {
            LookError::Unsound => Refusal::plain(19),
            LookError::NoOwner => Refusal::plain(24),
        }
    }
}

impl Unsound {
    // The refusal of the call that tells a party's share.
    pub fn refusal(self) -> Refusal
        ensures { result ≡ unsound_refusal self }
    {
        Refusal::plain(19)
    }
}

// The answer of a clear, an insert or a share's setting.
pub fn store_outcome(answer: Result<(), StoreError>) -> Result<(), Refusal>
    ensures { result ≡ store_outcome answer }
{
    answer.map_err(|error| error.refusal())
}

// The answer of a save.
pub fn save_outcome(answer: Result<(), SaveError>) -> Result<(), Refusal>
    ensures { result ≡ save_outcome answer }
{
    answer.map_err(|refused| refused.refusal())
}

// The answer of a look-up: whether a line is held.
pub fn look_outcome(answer: Result<bool, LookError>) -> Result<bool, Refusal>
    ensures { result ≡ look_outcome answer }
{
    answer.map_err(|looked| looked.refusal())
}

// The answer of a look-up that also takes a UUID without its checksum; exact, near and none are told by the answer
// itself.
pub fn near_outcome(answer: Result<Option<Nearness>, LookError>) -> Result<(), Refusal>
    ensures { result ≡ near_outcome answer }
{
    answer.map(|_| ()).map_err(|tried| tried.refusal())
}

// The answer of the call that tells a party's share; what is told stands in the answer itself.
pub fn told_outcome(answer: Result<ShareUse, Unsound>) -> Result<(), Refusal>
    ensures { result ≡ told_outcome answer }
{
    answer.map(|_| ()).map_err(|unsound| unsound.refusal())
}

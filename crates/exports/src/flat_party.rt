// The party that a call of the store names.
ghost use Rattle.std.specs.Prelude.{◌≡◌};
ghost use Rattle.exports.specs.FlatStore.{party_in};

use store::parties::Party;

// An organiser by its owner byte, or the hall, where the byte is not read.
#[repr(C)]
#[derive(Clone, Copy)]
pub struct FlatParty {
    pub organiser: bool,
    pub owner: u8,
}

impl From<FlatParty> for Party {
    ghost from_gives = { λ f p. p ≡ party_in f };

    fn from(f: FlatParty) -> Party {
        if f.organiser {
            Party::Organiser(f.owner)
        } else {
            Party::Hall
        }
    }
}

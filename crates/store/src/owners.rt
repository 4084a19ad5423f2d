// Whose lines a call is about.
ghost use Rattle.std.specs.Prelude.{◌≡◌};
ghost use Rattle.store.specs.Parties.{owner_of};

use crate::parties::Party;

// The owner byte of a party's lines, 0 being the hall's; none where an organiser says 0.
pub fn owner_of(party: Party) -> Option<u8>
    ensures { result ≡ owner_of party }
{
    match party {
        Party::Hall => Some(0),
        Party::Organiser(0) => None,
        Party::Organiser(byte) => Some(byte),
    }
}

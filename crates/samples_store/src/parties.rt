// Whose call a case is: `by 7 ..` is an organiser's, every other the hall's.
use crate::spelled::owner;
use parts::cuts::{rest, word};
use store::parties::Party;

// The party of a case, and its call without the party.
pub fn party_and_call(line: &[u8]) -> (Party, &[u8]) {
    match word(line) {
        b"by" => {
            let named = rest(line);
            (Party::Organiser(owner(word(named))), rest(named))
        }
        _ => (Party::Hall, line),
    }
}

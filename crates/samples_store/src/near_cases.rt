// Cases of the look-up that also tries a UUID without its checksum.
use crate::cases::{Looked, Store};
use store::near::{Nearness, found_near, get_near};
use text::uuid::Uuid;

impl<'a> Store<'a> {
    // `near SAYS UUID LINE`: 1 exact, 2 near, 0 none, 19 or 24, and the line that is handed back, empty for the last
    // three.
    pub fn near(&'a self, key: Uuid) -> Looked<'a> {
        let says = match found_near(self.index, self.text, self.party, key) {
            Ok(Some(Nearness::Exact)) => 1,
            Ok(Some(Nearness::Near)) => 2,
            Ok(None) => 0,
            Err(e) => e.refusal().number as usize,
        };
        let line = get_near(self.index, self.text, self.party, key);
        Looked { says, line }
    }
}

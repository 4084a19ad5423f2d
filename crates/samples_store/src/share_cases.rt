// Cases of the parties' shares of the text.
use crate::cases::{Store, insert_answer};
use crate::spelled::{big, large, owner};
use parts::cuts::{rest, word};
use parts::numbers::number;
use store::sharing::{ShareUse, set_share, share_of};

impl Store<'_> {
    // `share ANSWER OWNER BYTES`
    pub fn share_case(self, args: &[u8]) -> bool {
        let more = rest(args);
        let bytes = big(word(rest(more)));
        let Store { index, text, .. } = self;
        let set = set_share(index, text, owner(word(more)), bytes);
        insert_answer(set, word(args))
    }

    // `told ANSWER OWNER SHARE USE`: 0 or 19; share and use are 0 where nothing is told. A word that is none is wrong.
    pub fn told_case(&self, args: &[u8]) -> bool {
        let more = rest(args);
        let uses = rest(more);
        let (refused, shown) = match share_of(self.index, self.text, owner(word(more))) {
            Ok(told) => (0, told),
            Err(e) => (e.refusal().number, ShareUse { share: 0, used: 0 }),
        };
        refused as usize == number(word(args))
            && large(word(uses)) == Some(shown.share)
            && large(word(rest(uses))) == Some(shown.used)
    }
}

// Whose lines a command is about: `party=7` is a league organiser, no `party=` the hall.
use crate::wrong::wrong;
use desk::arguments::is_party;
use desk::console::{Console, argument, argument_count};
use desk::fields::after;
use desk::files::arg_space;
use desk::say::Failure;
use desk::tally::count_one;
use store::parties::Party;
use text::decimal::parse_u16;

// The organiser that the arguments name, if they name one; how many of them say something else; and whether all that are
// about the party were understood.
#[derive(Clone, Copy)]
pub struct Caller {
    organiser: Option<u8>,
    understood: Result<(), Failure>,
    pub others: usize,
}

impl Caller {
    // Who calls, by the arguments from `from` on. What is not understood is said.
    pub fn named(console: &Console, from: usize) -> Caller {
        let mut caller = Caller {
            organiser: None,
            understood: Ok(()),
            others: 0,
        };
        for i in from..argument_count(console) {
            let mut space = arg_space();
            caller.take(console, argument(console, i, &mut space));
        }
        caller
    }

    // Who calls, where that was understood.
    pub fn party(self) -> Result<Party, Failure> {
        self.understood?;
        Ok(
            self.organiser
                .map_or(Party::Hall, |owner| Party::Organiser(owner)),
        )
    }

    // One more argument.
    fn take(&mut self, console: &Console, arg: &[u8]) {
        if !is_party(arg) {
            count_one(&mut self.others);
            return;
        }
        match self.named_by(console, arg) {
            Ok(owner) => self.organiser = Some(owner),
            Err(failure) => self.understood = Err(failure),
        }
    }

    // `party=7`. What an organiser with owner 0 may do is the library's to say.
    fn named_by(&self, console: &Console, arg: &[u8]) -> Result<u8, Failure> {
        if self.organiser.is_some() {
            return Err(wrong(console, arg, b": the party is given twice\n"));
        }
        parse_u16(after(arg, b'='))
            .and_then(|n| u8::try_from(n).ok())
            .ok_or_else(|| no_party(console, arg))
    }
}

fn no_party(console: &Console, arg: &[u8]) -> Failure {
    wrong(
        console,
        arg,
        b": a league organiser is a number from 1 to 255; without party= the lines are the hall's\n",
    )
}

// The owner byte of a party: what a store's records hold, and no status. Functions, and no `From`, since `Party` is the
// crate store's.
pub fn owner_of(party: Party) -> u8 {
    match party {
        Party::Hall => 0,
        Party::Organiser(owner) => owner,
    }
}

// The party of an owner byte; 0 is the hall.
pub fn party_of(owner: u8) -> Party {
    match owner {
        0 => Party::Hall,
        _ => Party::Organiser(owner),
    }
}

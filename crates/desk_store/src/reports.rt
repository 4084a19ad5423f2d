// What the command insert says of a list, and why a store has no room.
use crate::census::{Census, count_lines, nth_line};
use desk::console::Console;
use desk::fields::{before, first};
use desk::forms::say_other_forms;
use desk::say::{ERR, Failure, OUT, complain, put_number, say, say_number};
use desk::words::put_refused;
use desk_pads::excerpt::put_start;
use desk_records::holding::{line_room, lines_held};
use desk_records::records::{LineKey, View};
use desk_records::refusals::refused_by;
use desk_records::shares::{complain_claims, free_for};
use store::calls::{Inserted, StoreError};
use store::parties::Party;
use text::uuid::Uuid;

// What a party's insert of a list came to, in a store that held `held` lines before and now is as it is.
#[derive(Clone, Copy)]
pub struct Report<'l, 's> {
    pub list: &'l [u8],
    pub party: Party,
    pub inserted: Inserted,
    pub held: usize,
    pub store: View<'s>,
}

// A line of the report, where there is something to report. The words end the line, or it goes on behind them; so it is
// not desk's `say_count`, which always ends it.
fn say_some(console: &Console, n: usize, words: &[u8]) {
    if n == 0 {
        return;
    }
    say(console, b"  ");
    say_number(console, n);
    say(console, words);
}

// Whether lines were filed: all, or those before the one it stopped at.
pub fn has_filed(answer: Result<(), StoreError>) -> bool {
    matches!(
        answer,
        Ok(()) | Err(StoreError::LineTooLong | StoreError::NoRoom | StoreError::NoText)
    )
}

// Where there is no room.
#[derive(Clone, Copy, PartialEq, Eq)]
pub enum Full {
    Index,
    Text,
}

// A line that has no room in a store, in the place of one of `freed` bytes.
#[derive(Clone, Copy)]
pub struct NoRoom<'a> {
    pub full: Full,
    pub wanted: usize,
    pub freed: usize,
    pub party: Party,
    pub store: View<'a>,
}

impl NoRoom<'_> {
    // How many bytes the line wants, what is free for it, who claims the text where shares are set, and what can be done.
    pub fn complain(self, console: &Console) {
        put_number(console, ERR, self.wanted);
        complain(console, b" bytes wanted; ");
        put_number(console, ERR, free_for(self.store, self.party, self.freed));
        complain(console, b" bytes free, and room for ");
        put_number(console, ERR, line_room(self.store, self.party));
        complain(console, b" more lines\n");
        if self.full == Full::Text {
            complain_claims(console, self.store);
        }
        complain(console, b"  what can be done: ");
        if self.store.can_grow() {
            complain(console, b"make the store large (hub grow STORE); or ");
        }
        complain(
            console,
            b"insert a list of only the pads that the
  hall has, into a fresh store (hub new); or keep a second store; or clear this one (hub clear) and
  insert what is needed. hub list shows what is held.\n",
        );
    }
}

impl Report<'_, '_> {
    // Says what became of the list.
    pub fn say(self, console: &Console) -> Result<(), Failure> {
        self.inserted.answer.map_err(|e| self.refused(console, e))?;
        self.say_filed(console);
        Ok(())
    }

    // What became of the lines walked.
    fn say_filed(self, console: &Console) {
        let count = self.inserted.count;
        let census = Census::of(self.list, count);
        let fresh = lines_held(self.store).saturating_sub(self.held);
        say_number(console, count);
        say(console, b" lines walked, ");
        say_number(console, census.wanted);
        say(console, b" filed, ");
        say_number(console, count.saturating_sub(census.wanted));
        say(console, b" passed over\n");
        say_some(
            console,
            census.wanted.saturating_sub(fresh),
            b" of those filed took the place of another line\n",
        );
        self.say_census(console, census);
        say_other_forms(console, self.inserted.not_simple);
    }

    fn say_census(self, console: &Console, census: Census) {
        say_some(
            console,
            census.unreadable,
            b" of those filed can't be read: hub lint FILE says why\n",
        );
        say_some(console, census.empty, b" empty\n");
        say_some(console, census.comments, b" comments\n");
        say_some(console, census.elsewhere, b" for other platforms\n");
        if let Some(number) = census.no_uuid.first {
            say_some(
                console,
                census.no_uuid.count,
                b" whose first field is no UUID; the first is line ",
            );
            say_number(console, number);
            say(console, b": ");
            put_start(console, OUT, nth_line(self.list, number.saturating_sub(1)));
            say(console, b"\n");
        }
    }

    // An insert that was refused; a line that stopped it leaves those before it filed.
    fn refused(self, console: &Console, e: StoreError) -> Failure {
        if has_filed(Err(e)) {
            self.say_filed(console);
            self.complain_stopped(console, e);
            return Failure::Refused;
        }
        let failure = refused_by(console, e.refusal());
        if let StoreError::NotUtf8(place) = e {
            self.complain_text(console, place);
        }
        failure
    }

    // A list that is not UTF-8 from a place on.
    fn complain_text(self, console: &Console, place: usize) {
        complain(console, b"  line ");
        let until = first(self.list, place.wrapping_add(1));
        put_number(console, ERR, count_lines(until));
        complain(console, b" of the list has it; nothing is filed\n");
    }

    // Which line stopped an insert, how many were not reached, and what can be done.
    fn complain_stopped(self, console: &Console, e: StoreError) {
        let number = self.inserted.count.wrapping_add(1);
        let line = nth_line(self.list, self.inserted.count);
        put_refused(console, ERR, usize::from(e.refusal().number));
        complain(console, b"\n  line ");
        put_number(console, ERR, number);
        complain(console, b" stopped the insert: ");
        put_start(console, ERR, line);
        complain(console, b"\n  the lines before it are kept; ");
        put_number(console, ERR, count_lines(self.list).saturating_sub(number));
        complain(console, b" lines after it were not reached\n  ");
        match e {
            StoreError::NoRoom => self.complain_full(console, Full::Index, line),
            StoreError::NoText => self.complain_full(console, Full::Text, line),
            _ => {
                complain(console, b"it has ");
                put_number(console, ERR, line.len());
                complain(console, b" bytes; take it out of the list, or shorten it\n");
            }
        }
    }

    fn complain_full(self, console: &Console, full: Full, line: &[u8]) {
        let no_room = NoRoom {
            full,
            wanted: line.len(),
            freed: self.bytes_freed(line),
            party: self.party,
            store: self.store,
        };
        no_room.complain(console);
    }

    // The bytes of the party's line that one with the same UUID takes the place of.
    fn bytes_freed(self, line: &[u8]) -> usize {
        Uuid::parse_str(before(line, b',')).map_or(0, |spelled| {
            let key = LineKey {
                party: self.party,
                id: spelled.id,
            };
            self.store.line(key).len()
        })
    }
}

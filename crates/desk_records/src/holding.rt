// The commands that look into a store: find, list, check.
use crate::names::{say_named, say_owner, say_rows};
use crate::parties::Caller;
use crate::records::{LineKey, Record, View};
use crate::refusals::refused_by;
use crate::shares::{Ledger, put_sum};
use crate::wrong::complain_about;
use desk::console::Console;
use desk::files::load;
use desk::help::wrong_use;
use desk::near::complain_near;
use desk::say::{Failure, OUT, say, say_number};
use desk::shown::say_shown;
use desk::tally::count_one;
use desk::words::none;
use store::calls::found;
use store::near::{Nearness, found_near};
use store::parties::Party;
use text::uuid::Uuid;

// The lines held, how many of them are organisers', their bytes, the shares, and the bytes of all records.
#[derive(Clone, Copy, Default)]
struct Extent {
    shares: usize,
    lines: usize,
    owned: usize,
    bytes: usize,
    records: usize,
}

// The line that a party holds under a UUID, or else under that without its checksum. What is not exact is said, of the
// argument `arg` where that is not empty.
pub fn near_line<'a>(
    console: &Console,
    store: View<'a>,
    key: LineKey,
    arg: &[u8],
) -> Result<&'a [u8], Failure> {
    match found_near(store.index, store.text, key.party, key.id) {
        Ok(Some(Nearness::Exact)) => {}
        Ok(Some(Nearness::Near)) => {
            complain_about(console, arg);
            complain_near(console, key.id);
        }
        Ok(None) => {
            complain_about(console, arg);
            return Err(none(console));
        }
        Err(e) => return Err(refused_by(console, e.refusal())),
    }
    Ok(store.near_line(key))
}

// Prints a line, shown, and its end.
pub fn say_shown_line(console: &Console, line: &[u8]) {
    say_shown(console, line);
    say(console, b"\n");
}

// Prints the line that a party holds under a UUID, or else under that without its checksum.
pub fn say_line(console: &Console, store: View, key: LineKey) -> Result<(), Failure> {
    say_shown_line(console, near_line(console, store, key, b"")?);
    Ok(())
}

// Whether a store is sound, and the party one that may look into it: what is refused is said.
pub fn sound(console: &Console, store: View, party: Party) -> Result<(), Failure> {
    found(store.index, store.text, party, Uuid::NIL).map_err(|e| refused_by(console, e.refusal()))?;
    Ok(())
}

// What is no UUID is sought in the names.
fn find_named(console: &Console, store: View, party: Party, part: &[u8]) -> Result<(), Failure> {
    sound(console, store, party)?;
    say_named(console, store, party, part)
}

// `hub find STORE UUID ..`, `hub find STORE TEXT ..`; the party stands from argument `from` on.
pub fn find_line(console: &Console, path: &[u8], key: &[u8], from: usize) -> Result<(), Failure> {
    let caller = Caller::named(console, from);
    if caller.others != 0 {
        return Err(wrong_use(console, b"find"));
    }
    let party = caller.party()?;
    let file = load(console, path)?;
    let store = View::from(&file);
    match Uuid::parse_str(key) {
        Some(spelled) => {
            let id = spelled.id;
            say_line(console, store, LineKey { party, id })
        }
        None => find_named(console, store, party, key),
    }
}

// A line, after its party where that is an organiser.
fn say_record(console: &Console, record: Record) {
    let Some(line) = record.line() else {
        return;
    };
    say_owner(console, record.owner);
    say_shown_line(console, line);
}

impl Extent {
    // What a sound store holds.
    fn of(store: View) -> Extent {
        let mut seen = Extent::default();
        for record in store.records() {
            seen.count(record);
        }
        seen
    }

    // One more record.
    fn count(&mut self, record: Record) {
        self.records = self.records.wrapping_add(record.bytes.len());
        let Some(line) = record.line() else {
            count_one(&mut self.shares);
            return;
        };
        count_one(&mut self.lines);
        if record.owner != 0 {
            count_one(&mut self.owned);
        }
        self.bytes = self.bytes.wrapping_add(line.len());
    }

    // The bytes that are left in the index.
    fn room(self, store: View) -> usize {
        store.index.len().saturating_sub(self.records)
    }

    // The room for lines: the hall's, and an organiser's where one holds any.
    fn say_line_room(self, console: &Console, store: View) {
        let room = self.room(store);
        say_number(console, store.lines_in(room, Party::Hall));
        say(console, b" more lines");
        if self.owned != 0 {
            say(console, b" of the hall or ");
            say_number(console, store.lines_in(room, Party::Organiser(1)));
            say(console, b" of an organiser");
        }
    }

    // The lines held and the room left, of the text that many bytes.
    fn say_held(self, console: &Console, store: View, left: usize) {
        say_number(console, self.lines);
        say(console, b" lines held, ");
        if self.owned != 0 {
            say_number(console, self.owned);
            say(console, b" of them organisers', ");
        }
        say(console, b"of ");
        say_number(console, self.bytes);
        say(console, b" bytes; room for ");
        self.say_line_room(console, store);
        say(console, b" and ");
        say_number(console, left);
        say(console, b" more bytes");
    }
}

// How many lines a sound store holds.
pub fn lines_held(store: View) -> usize {
    Extent::of(store).lines
}

// How many more lines of a party the index of a sound store has room for.
pub fn line_room(store: View, party: Party) -> usize {
    store.lines_in(Extent::of(store).room(store), party)
}

// What is held and what room is left, and where a share is set what the parties claim.
pub fn say_extent(console: &Console, store: View) {
    let held = Extent::of(store);
    if held.shares == 0 {
        let left = store.text.len().saturating_sub(held.bytes);
        held.say_held(console, store, left);
        say(console, b"\n");
        return;
    }
    let ledger = Ledger::of(store);
    held.say_held(console, store, ledger.left());
    say(console, b" beside the parties' shares\n");
    put_sum(console, OUT, &ledger);
}

// That a store is sound, and what it holds. This, say_long and say_list differ in what is printed between two calls:
// one function for all would take that as a closure, ask a `requires` of it, and be no shorter.
pub fn say_sound(console: &Console, store: View) -> Result<(), Failure> {
    sound(console, store, Party::Hall)?;
    say(console, b"sound: ");
    say_extent(console, store);
    Ok(())
}

// The lines of a store in the order of filing, and what it holds.
fn say_long(console: &Console, store: View) -> Result<(), Failure> {
    sound(console, store, Party::Hall)?;
    for record in store.records() {
        say_record(console, record);
    }
    say_extent(console, store);
    Ok(())
}

// The rows of a store, by name, and what it holds.
pub fn say_list(console: &Console, store: View) -> Result<(), Failure> {
    sound(console, store, Party::Hall)?;
    say_rows(console, store)?;
    say_extent(console, store);
    Ok(())
}

// `hub list STORE`
pub fn list_store(console: &Console, path: &[u8]) -> Result<(), Failure> {
    let file = load(console, path)?;
    say_list(console, View::from(&file))
}

// `hub list STORE long`
pub fn list_long(console: &Console, path: &[u8]) -> Result<(), Failure> {
    let file = load(console, path)?;
    say_long(console, View::from(&file))
}

// `hub check STORE`
pub fn check_store(console: &Console, path: &[u8]) -> Result<(), Failure> {
    let file = load(console, path)?;
    say_sound(console, View::from(&file))
}

// Changes of map in the middle of a recording: `after=N:UUID` for the first pad, `after2=N:UUID` for the second.
use crate::held_maps::held_map;
use crate::test_args::Test;
use desk::console::{Console, argument, argument_count};
use desk::fields::{after, before};
use desk::files::arg_space;
use desk::say::{ERR, Failure, complain, put_number, say, say_number};
use desk::shown::say_shown;
use desk::tally::count_one;
use desk_pads::holders::Found;
use desk_pads::playing::{Play, say_element, say_which};
use line::mapping::Mapping;
use pad::events::{Event, Events};
use pad::two::Which;
use std::str;
use text::uuid::Uuid;

// The most digits of a number of records.
const DIGITS_MAX: usize = 9;

// After how many records of a pad the map of which line comes.
#[derive(Clone, Copy)]
struct MapChange {
    records: usize,
    id: Uuid,
}

// A number of one to nine digits.
pub fn parse_count(s: &[u8]) -> Option<usize> {
    if DIGITS_MAX < s.len() || !s.iter().all(|b| b.is_ascii_digit()) {
        return None;
    }
    str::from_utf8(s).ok()?.parse().ok()
}

// `2:UUID`
fn parse_change(s: &[u8]) -> Option<MapChange> {
    let records = parse_count(before(s, b':'))?;
    let id = Uuid::parse_str(after(s, b':'))?.id;
    Some(MapChange { records, id })
}

// Whether an argument is a change of map, so written.
pub fn is_change(arg: &[u8]) -> bool {
    parse_change(after(arg, b'=')).is_some()
}

// The key of the arguments that change a pad's map.
fn key_of(which: Which) -> &'static [u8] {
    match which {
        Which::First => b"after",
        Which::Second => b"after2",
    }
}

// The change of a pad's map that argument `i` is, if it is one.
fn change_at(console: &Console, which: Which, i: usize) -> Option<MapChange> {
    let mut space = arg_space();
    let arg = argument(console, i, &mut space);
    if before(arg, b'=') != key_of(which) {
        return None;
    }
    parse_change(after(arg, b'='))
}

// The fewest records, not less than `least`, after which a change of a pad's map comes by an argument from `from` on.
pub fn due_from(console: &Console, which: Which, from: usize, least: usize) -> Option<usize> {
    (from..argument_count(console))
        .filter_map(|i| change_at(console, which, i))
        .map(|change| change.records)
        .filter(|records| least <= *records)
        .min()
}

// `pad 1, after 2 records: ` and the line.
fn say_change(console: &Console, play: &Play, which: Which, line: &[u8]) {
    if play.two {
        say_which(console, which);
        say(console, b", ");
    }
    say(console, b"after ");
    say_number(console, play.seat(which).records);
    say(console, b" records: ");
    say_shown(console, line);
    say(console, b"\n");
}

fn say_event(console: &Console, play: &Play, which: Which, told: Event) {
    say(console, b"  ");
    say_element(console, told.element, told.value);
    let found = Found {
        play,
        which,
        element: told.element,
        value: told.value,
    };
    found.say_held_by(console);
    say(console, b"\n");
}

// The events of a change of map, one a line.
fn say_events(console: &Console, play: &Play, which: Which, events: Events) {
    if events.count == 0 {
        say(console, b"  no element has another value\n");
    }
    for told in events.list.iter().take(events.count) {
        say_event(console, play, which, *told);
    }
}

// Gives a pad another map, and tells what comes of it.
fn give_map(console: &Console, play: &mut Play, which: Which, map: Mapping) {
    let events = play.pads.change_map(which, &map);
    let mut seat = play.seat(which);
    seat.map = map;
    play.set_seat(which, seat);
    count_one(&mut play.tally.changes);
    play.tally.changed = play.tally.changed.wrapping_add(events.count);
    say_events(console, play, which, events);
}

impl Test<'_> {
    // Whether the line of a change is held and accepted.
    fn has_change(self, console: &Console, which: Which, i: usize) -> Result<(), Failure> {
        if let Some(change) = change_at(console, which, i) {
            let mut space = arg_space();
            let arg = argument(console, i, &mut space);
            held_map(
                console,
                self.store,
                self.key(change.id),
                &self.asked.lists(which),
                arg,
            )?;
        }
        Ok(())
    }

    // Whether all lines of a pad's changes are.
    pub fn has_changes(self, console: &Console, which: Which) -> Result<(), Failure> {
        for i in self.asked.from..argument_count(console) {
            self.has_change(console, which, i)?;
        }
        Ok(())
    }

    // The change that argument `i` is, where it comes after so many records.
    fn change(self, console: &Console, play: &mut Play, which: Which, i: usize) {
        let Some(change) = change_at(console, which, i) else {
            return;
        };
        if change.records == play.seat(which).records {
            let line = self.store.near_line(self.key(change.id));
            say_change(console, play, which, line);
            give_map(console, play, which, self.asked.lists(which).read(line).map);
        }
    }

    // The changes of a pad's map that come after its last record, in the order of the arguments.
    pub fn change_all(self, console: &Console, play: &mut Play, which: Which) {
        let now = play.seat(which);
        if now.due != Some(now.records) {
            return;
        }
        for i in self.asked.from..argument_count(console) {
            self.change(console, play, which, i);
        }
        let mut seat = play.seat(which);
        seat.due = due_from(
            console,
            which,
            self.asked.from,
            seat.records.wrapping_add(1),
        );
        play.set_seat(which, seat);
    }
}

// Says which change of a pad's map never came.
pub fn all_came(console: &Console, play: &Play, which: Which) -> Result<(), Failure> {
    let seat = play.seat(which);
    let Some(due) = seat.due else {
        return Ok(());
    };
    complain(console, key_of(which));
    complain(console, b"=");
    put_number(console, ERR, due);
    complain(console, b":..: the recording has only ");
    put_number(console, ERR, seat.records);
    complain(
        console,
        b" records of buttons and axes, so this change never came\n",
    );
    Err(Failure::Refused)
}

// The arguments of commands on mappings, and two of these: show, default.
use crate::held_maps::Lists;
use desk::arguments::has_word;
use desk::codes::{Kind, codes_named};
use desk::console::Console;
use desk::files::load;
use desk::say::{Failure, complain};
use desk_pads::pairs::say_pairs;
use desk_pads::plugged::{Plugged, is_pad_name, pad_named};
use desk_pads::slots::{Slots, slots_named};
use desk_pads::table::{say_map, say_reading};
use desk_records::holding::{near_line, say_shown_line};
use desk_records::parties::Caller;
use desk_records::records::{LineKey, View};
use desk_records::refusals::refused_by;
use desk_records::wrong::id_named;
use map::default::default;
use store::parties::Party;
use text::uuid::Uuid;

// What the arguments from a place on say; `anyway`: whether that word is among them, with no value beside it.
#[derive(Clone, Copy)]
pub(crate) struct Request {
    pub lists: Lists,
    pub slots: Slots,
    pub party: Party,
    pub anyway: bool,
}

impl Request {
    // Where all arguments are understood. What is not is said, of each of them.
    pub(crate) fn named(console: &Console, from: usize) -> Result<Request, Failure> {
        let buttons = codes_named(console, b"buttons", Kind::Button, from);
        let axes = codes_named(console, b"axes", Kind::Axis, from);
        let slots = slots_named(console, from);
        let caller = Caller::named(console, from);
        let anyway = has_word(console, b"anyway", from);
        let lists = Lists {
            buttons: buttons.ok_or(Failure::Trouble)?,
            axes: axes.ok_or(Failure::Trouble)?,
        };
        Ok(Request {
            lists,
            slots: slots.ok_or(Failure::Trouble)?,
            party: caller.party()?,
            anyway,
        })
    }

    // The line of its party under a UUID.
    pub(crate) fn key(&self, id: Uuid) -> LineKey {
        LineKey {
            party: self.party,
            id,
        }
    }

    // With a pad's lists, where it has none of its own.
    pub(crate) fn or_of(self, pad: Plugged) -> Request {
        Request {
            lists: self.lists.or_of(pad),
            ..self
        }
    }

    // Whether the arguments are lists, and perhaps a party, only.
    fn has_no_slots(&self) -> bool {
        self.slots.given == 0 && !self.anyway
    }
}

// Prints a line, and its map by the lists; its pairs where there are none.
fn show_line(console: &Console, line: &[u8], lists: &Lists) -> Result<(), Failure> {
    say_shown_line(console, line);
    if lists.is_empty() {
        return say_pairs(console, line);
    }
    say_reading(
        console,
        line,
        lists.buttons.as_slice(),
        lists.axes.as_slice(),
    )
}

fn show_held(console: &Console, path: &[u8], id: Uuid, asked: Request) -> Result<(), Failure> {
    let file = load(console, path)?;
    let line = near_line(console, View::from(&file), asked.key(id), b"")?;
    show_line(console, line, &asked.lists)
}

// `hub show STORE UUID ..`; the lists stand from argument `from` on.
pub fn show_mapping(
    console: &Console,
    path: &[u8],
    key: &[u8],
    from: usize,
) -> Result<(), Failure> {
    let asked = Request::named(console, from)?;
    if !asked.has_no_slots() {
        complain(
            console,
            b"here the arguments are buttons=.., axes=.. and party=.. only\n",
        );
        return Err(Failure::Trouble);
    }
    if is_pad_name(key) {
        let pad = pad_named(console, key)?;
        return show_held(console, path, pad.id, asked.or_of(pad));
    }
    show_held(console, path, id_named(console, key)?, asked)
}

// `hub default ..`
pub fn default_mapping(console: &Console, from: usize) -> Result<(), Failure> {
    default_asked(console, Request::named(console, from)?)
}

// `hub default pad:1 ..`
pub fn default_pad(console: &Console, key: &[u8], from: usize) -> Result<(), Failure> {
    let asked = Request::named(console, from);
    let pad = pad_named(console, key)?;
    default_asked(console, asked?.or_of(pad))
}

// The default map by the lists.
fn default_asked(console: &Console, asked: Request) -> Result<(), Failure> {
    if matches!(asked.party, Party::Organiser(_)) || !asked.has_no_slots() {
        complain(
            console,
            b"here the arguments are buttons=.. and axes=.. only\n",
        );
        return Err(Failure::Trouble);
    }
    let lists = asked.lists;
    let made = default(lists.buttons.as_slice(), lists.axes.as_slice());
    made.answer.map_err(|e| refused_by(console, e.refusal()))?;
    say_map(console, &made.map, b"");
    Ok(())
}

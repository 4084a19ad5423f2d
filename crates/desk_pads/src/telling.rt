// What is told of each record of a recording: the event that it gives by the pads' states, or why there is none.
use crate::elements::{is_left_out, put_element};
use crate::holders::Found;
use crate::playing::{Play, say_element, say_pad};
use crate::reports::{NoEvent, Report, report_of};
use desk::codes::Kind;
use desk::console::Console;
use desk::input_events::Input;
use desk::say::{OUT, put_value, say};
use desk::tally::count_one;
use desk::words::put_refused;
use line::ev::Code;
use line::mapping::Entry;
use pad::events::{Event, Raw};
use pad::state::{TooManyCodes, pad_outcome};
use pad::two::Which;
use pad::value::{entry_value, event};

// `10130 pressed: `, `30000 -12: `
fn say_raw(console: &Console, code: u32, raw: Raw) {
    match raw {
        Raw::ButtonReleased => put_value(console, OUT, format_args!("{code:x} released: ")),
        Raw::ButtonPressed => put_value(console, OUT, format_args!("{code:x} pressed: ")),
        Raw::AxisValueChanged(v) => put_value(console, OUT, format_args!("{code:x} {v}: ")),
    }
}

// A raw value of a code that one of the player's pads holds now.
#[derive(Drop)]
struct Telling<'a> {
    console: &'a Console,
    play: &'a mut Play,
    which: Which,
    code: Code,
    raw: Raw,
}

impl Telling<'_> {
    // `South (a) 32767`, and what holds it there, where it is not the code itself.
    fn say_told(&mut self, told: Event) {
        let console = self.console;
        say_element(console, told.element, told.value);
        let found = Found {
            play: self.play,
            which: self.which,
            element: told.element,
            value: told.value,
        };
        let map = found.play.seat(self.which).map;
        match event(&map, self.code, self.raw) {
            Some(own) if own.value == told.value => {}
            None if told.value == 0 => {
                say(console, b", since it has no value there");
            }
            _ => found.say_held_by(console),
        }
        say(console, b"\n");
        count_one(&mut self.play.tally.told);
    }

    // An element that a code gives a value, and that has its value already or has another one.
    fn say_kept(&mut self, entry: Entry, given: i16) {
        let console = self.console;
        let value = self.play.pads.value(entry.element);
        if given == value {
            put_value(console, OUT, format_args!(" is at {value} already\n"));
        } else {
            let found = Found {
                play: self.play,
                which: self.which,
                element: entry.element,
                value,
            };
            put_value(console, OUT, format_args!(" keeps {value}: "));
            found.say_reason(console, given);
            say(console, b"\n");
        }
        count_one(&mut self.play.tally.kept);
    }

    // Why a code in the map gives none.
    fn say_entered(&mut self, entry: Entry) {
        let console = self.console;
        say(console, b"no event: ");
        put_element(console, OUT, entry.element);
        if is_left_out(entry.element) {
            say(
                console,
                b" is left out, since only known elements have events\n",
            );
            count_one(&mut self.play.tally.left_out);
            return;
        }
        if let Some(given) = entry_value(entry, self.raw) {
            self.say_kept(entry, given);
            return;
        }
        let value = self.play.pads.value(entry.element);
        put_value(
            console,
            OUT,
            format_args!(" has no value there, and keeps {value}\n"),
        );
        count_one(&mut self.play.tally.valueless);
    }

    // Why it gives none.
    fn say_none(&mut self) {
        let map = self.play.seat(self.which).map;
        match map.entry(self.code) {
            Some(entry) => self.say_entered(entry),
            None => {
                say(
                    self.console,
                    b"no event: the code is not in the map, and is held\n",
                );
                count_one(&mut self.play.tally.unmapped);
            }
        }
    }

    // A code that the pad has no room for. The crate pad gives the refusal of an answer, and not of its error, so the
    // error goes in as an answer.
    fn say_refused(&mut self, e: TooManyCodes) {
        say(self.console, b"no event: ");
        if let Err(refusal) = pad_outcome(Err(e)) {
            put_refused(self.console, OUT, refusal.number as usize);
        }
        say(self.console, b"\n");
        count_one(&mut self.play.tally.refused);
    }

    // Its event, if there is one.
    fn tell(&mut self) {
        say_raw(self.console, self.code.0, self.raw);
        match self.play.pads.raw_event(self.which, self.code, self.raw) {
            Ok(Some(told)) => self.say_told(told),
            Ok(None) => self.say_none(),
            Err(e) => self.say_refused(e),
        }
    }
}

// `30000 40000: no event: ..`
fn say_untold(console: &Console, code: Code, value: i32, words: &str) {
    let code = code.0;
    put_value(
        console,
        OUT,
        format_args!("{code:x} {value}: no event: {words}\n"),
    );
}

// Tells a record of a button or an axis that is no raw event.
fn tell_untold(console: &Console, play: &mut Play, code: Code, value: i32, why: NoEvent) {
    match why {
        NoEvent::Repeats => {
            say_untold(console, code, value, "the button is held, and repeats");
            count_one(&mut play.tally.repeats);
        }
        NoEvent::Beyond(kind) => {
            let words = match kind {
                Kind::Button => "a button's value is 0, 1 or 2",
                Kind::Axis => "an axis value is from -32768 to 32767",
            };
            say_untold(console, code, value, words);
            count_one(&mut play.tally.beyond);
        }
    }
}

// Tells what a record of a button or an axis gives, and counts it.
fn tell_report(console: &Console, play: &mut Play, which: Which, value: i32, report: Report) {
    let code = report.code;
    say_pad(console, play, which);
    let mut seat = play.seat(which);
    count_one(&mut seat.records);
    play.set_seat(which, seat);
    match report.raw {
        Ok(raw) => {
            let mut telling = Telling {
                console,
                play,
                which,
                code,
                raw,
            };
            telling.tell();
        }
        Err(why) => tell_untold(console, play, code, value, why),
    }
}

// Tells what a record of a pad gives.
pub fn tell_input(console: &Console, play: &mut Play, which: Which, input: Input) {
    match report_of(input) {
        Some(report) => tell_report(console, play, which, input.value, report),
        None => count_one(&mut play.tally.others),
    }
}

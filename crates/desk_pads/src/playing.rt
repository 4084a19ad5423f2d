// The pads of one player while recordings are told: their states and the map of each, and what was counted.
use crate::elements::{ELEMENTS, element_at, put_element};
use desk::console::Console;
use desk::say::{OUT, put_value, say};
use desk::tally::Tally;
use line::ev::AxisOrBtn;
use line::mapping::Mapping;
use pad::state::Pad;
use pad::two::{Pads, Which};

// A pad's map, how many of its records were told, and after how many it gets its next map, if it gets one.
#[derive(Clone, Copy)]
pub struct Seat {
    pub map: Mapping,
    pub records: usize,
    pub due: Option<usize>,
}

impl Seat {
    pub fn new(map: Mapping, due: Option<usize>) -> Seat {
        Seat {
            map,
            records: 0,
            due,
        }
    }
}

// Where there is one recording, the second pad has no codes and the empty map: both seats stand always, as both pads
// do in `Pads`, and `two` is read only where something is printed. With an `Option<Seat>` in place of the two, `seat`
// would make up an empty one, and `set_seat` would bring in a second pad. What tells takes the console, the play and
// which pad one by one: which pad it is changes from record to record, so a struct of the three would be made for a
// single call. telling.rt makes one, `Telling`, where several methods share the three, the code and its raw value.
#[derive(Clone, Copy)]
pub struct Play {
    pub two: bool,
    pub pads: Pads,
    pub first: Seat,
    pub second: Seat,
    pub tally: Tally,
}

impl Play {
    // Nothing is told, and both pads have their maps.
    pub fn new(two: bool, first: Seat, second: Seat) -> Play {
        let mut pads = Pads::new();
        pads.change_map(Which::First, &first.map);
        pads.change_map(Which::Second, &second.map);
        Play {
            two,
            pads,
            first,
            second,
            tally: Tally::default(),
        }
    }

    pub fn seat(&self, which: Which) -> Seat {
        match which {
            Which::First => self.first,
            Which::Second => self.second,
        }
    }

    pub fn set_seat(&mut self, which: Which, seat: Seat) {
        match which {
            Which::First => self.first = seat,
            Which::Second => self.second = seat,
        }
    }

    pub fn pad(&self, which: Which) -> Pad {
        match which {
            Which::First => self.pads.first,
            Which::Second => self.pads.second,
        }
    }
}

// `pad 1`
pub fn say_which(console: &Console, which: Which) {
    let words = match which {
        Which::First => b"pad 1",
        Which::Second => b"pad 2",
    };
    say(console, words);
}

// The player's other pad.
pub fn beside(which: Which) -> Which {
    match which {
        Which::First => Which::Second,
        Which::Second => Which::First,
    }
}

// Whose line it is, where there are two pads.
pub fn say_pad(console: &Console, play: &Play, which: Which) {
    if play.two {
        say_which(console, which);
        say(console, b": ");
    }
}

// `South (a) 32767`
pub fn say_element(console: &Console, element: AxisOrBtn, value: i16) {
    put_element(console, OUT, element);
    put_value(console, OUT, format_args!(" {value}"));
}

// The elements that are not at 0.
fn say_values(console: &Console, pads: Pads) {
    let mut at_rest = true;
    for k in 0..ELEMENTS {
        let element = element_at(k);
        let value = pads.value(element);
        if value != 0 {
            at_rest = false;
            say(console, b"  ");
            say_element(console, element, value);
            say(console, b"\n");
        }
    }
    if at_rest {
        say(console, b"  every element is at 0\n");
    }
}

// How many codes are held, and the values of the elements.
pub fn say_end(console: &Console, play: &Play) {
    let pads = play.pads;
    let first = pads.first.count;
    let second = pads.second.count;
    put_value(
        console,
        OUT,
        format_args!("at the end, with {first} codes held"),
    );
    if play.two {
        put_value(
            console,
            OUT,
            format_args!(" by pad 1 and {second} by pad 2"),
        );
    }
    say(console, b":\n");
    say_values(console, pads);
}

// The command test: lines that are held are read, and what the events of recordings give by them is told.
use crate::held_maps::map_of;
use crate::map_changes::{all_came, due_from};
use crate::test_args::{Request, Seen, Test};
use desk::console::{Console, argument};
use desk::fields::after;
use desk::files::{arg_space, load};
use desk::input_events::Input;
use desk::say::{Failure, say};
use desk::streams::{Stream, Turn, no_stream, open_stream, turn_of};
use desk::tally::{say_tally, tally_status};
use desk_pads::playing::{Play, Seat, say_end};
use desk_pads::plugged::{is_pad_name, pad_named};
use desk_pads::telling::tell_input;
use desk_records::holding::{near_line, say_shown_line};
use desk_records::records::View;
use desk_records::wrong::{id_named, wrong};
use line::mapping::Mapping;
use pad::two::Which;
use text::uuid::Uuid;

// The most records of a recording: more than a pad sends in years.
const RECORDS_MAX: usize = 1099511627776;

// Two recordings, and the arguments that name them; where there is one, the second has no records.
#[derive(Drop)]
struct Recordings<'a> {
    first: Stream,
    second: Stream,
    from_arg: &'a [u8],
    with_arg: Option<&'a [u8]>,
}

impl<'a> Recordings<'a> {
    // Opens them, each at its first record. What can't be opened is said.
    fn open(
        console: &Console,
        from_arg: &'a [u8],
        with_arg: Option<&'a [u8]>,
    ) -> Result<Recordings<'a>, Failure> {
        let mut first = open_stream(console, from_arg)?;
        let mut second = match with_arg {
            Some(arg) => open_stream(console, arg)?,
            None => no_stream(),
        };
        first.move_on();
        second.move_on();
        Ok(Recordings {
            first,
            second,
            from_arg,
            with_arg,
        })
    }

    fn move_on(&mut self, which: Which) {
        match which {
            Which::First => self.first.move_on(),
            Which::Second => self.second.move_on(),
        }
    }

    // Says where they end inside a record, or can't be read on.
    fn end(&self, console: &Console) -> Result<(), Failure> {
        let first = self.first.end(console, self.from_arg);
        first.max(self.second.end(console, self.with_arg.unwrap_or(b"")))
    }
}

// What became of the records, and the worst that came of them.
fn ended(console: &Console, play: &Play, recordings: &Recordings) -> Result<(), Failure> {
    say_tally(console, play.tally);
    say_end(console, play);
    let read = recordings.end(console);
    let first = all_came(console, play, Which::First);
    let second = all_came(console, play, Which::Second);
    read.max(first).max(second).max(tally_status(play.tally))
}

impl Test<'_> {
    // Whether so many records of buttons and axes were told as were asked for.
    fn is_enough(self, play: &Play) -> bool {
        let told = play.first.records.wrapping_add(play.second.records);
        self.asked.limit.is_some_and(|limit| limit <= told)
    }

    // Whose record comes next; it is over where enough were told.
    fn turn(self, play: &Play, recordings: &Recordings) -> Option<Turn> {
        if self.is_enough(play) {
            return None;
        }
        turn_of(&recordings.first, &recordings.second)
    }

    // Tells a record, and goes to the next one; where enough were told it stays, since a device may have no next one.
    fn tell_record(
        self,
        console: &Console,
        play: &mut Play,
        recordings: &mut Recordings,
        which: Which,
        input: Input,
    ) {
        tell_input(console, play, which, input);
        self.change_all(console, play, which);
        if !self.is_enough(play) {
            recordings.move_on(which);
        }
    }

    // Tells the records of both recordings, in the order of their times, up to as many as were asked for.
    fn tell(
        self,
        console: &Console,
        play: &mut Play,
        recordings: &mut Recordings,
    ) -> Result<(), Failure> {
        for _ in 0..RECORDS_MAX {
            if console.is_closed() {
                return Err(Failure::Trouble);
            }
            match self.turn(play, recordings) {
                Some(Turn::First(input)) => {
                    self.tell_record(console, play, recordings, Which::First, input);
                }
                Some(Turn::Second(input)) => {
                    self.tell_record(console, play, recordings, Which::Second, input);
                }
                None => break,
            }
        }
        ended(console, play, recordings)
    }

    // The recordings of pads that have their maps.
    fn run(self, console: &Console, start: Play) -> Result<(), Failure> {
        let mut play = start;
        self.change_all(console, &mut play, Which::First);
        self.change_all(console, &mut play, Which::Second);
        let mut stream = arg_space();
        let from_arg = argument(console, self.asked.stream, &mut stream);
        let mut beside = arg_space();
        let space = &mut beside;
        let with_arg = self.asked.beside.map(move |i| argument(console, i, space));
        let mut recordings = Recordings::open(console, from_arg, with_arg)?;
        self.tell(console, &mut play, &mut recordings)
    }

    // A pad with the map of its line, which is shown. `label` is the pad, where there are two.
    fn seat(
        self,
        console: &Console,
        id: Uuid,
        which: Which,
        label: &[u8],
    ) -> Result<Seat, Failure> {
        let line = near_line(console, self.store, self.key(id), label)?;
        if !label.is_empty() {
            say(console, label);
            say(console, b": ");
        }
        say_shown_line(console, line);
        let map = map_of(console, line, &self.asked.lists(which), label)?;
        self.has_changes(console, which)?;
        let due = due_from(console, which, self.asked.from, 0);
        Ok(Seat::new(map, due))
    }

    fn run_one(self, console: &Console, id: Uuid) -> Result<(), Failure> {
        let first = self.seat(console, id, Which::First, b"")?;
        let second = Seat::new(Mapping::new(), None);
        self.run(console, Play::new(false, first, second))
    }

    fn run_two(self, console: &Console, id: Uuid, other: Uuid) -> Result<(), Failure> {
        let first = self.seat(console, id, Which::First, b"pad 1")?;
        let second = self.seat(console, other, Which::Second, b"pad 2")?;
        self.run(console, Play::new(true, first, second))
    }
}

// The second pad's UUID is the first one's, where it has none of its own.
fn other_id(console: &Console, id: Uuid, asked: &Request) -> Result<Uuid, Failure> {
    let Some(i) = asked.uuid else {
        return Ok(id);
    };
    let mut space = arg_space();
    id_named(console, after(argument(console, i, &mut space), b'='))
}

fn test_held(console: &Console, path: &[u8], id: Uuid, asked: Request) -> Result<(), Failure> {
    let other = other_id(console, id, &asked)?;
    let file = load(console, path)?;
    let store = View::from(&file);
    let test = Test {
        store,
        asked: &asked,
    };
    if asked.beside.is_some() {
        return test.run_two(console, id, other);
    }
    test.run_one(console, id)
}

// `hub test STORE UUID ..`; the other arguments stand from `from` on. Of a pad that is plugged in the script `hub` gives
// the device as from=.
pub fn test_mapping(
    console: &Console,
    path: &[u8],
    key: &[u8],
    from: usize,
) -> Result<(), Failure> {
    let seen = Seen::from_args(console, from);
    if is_pad_name(key) {
        let pad = pad_named(console, key)?;
        if seen.has_no_stream() {
            return Err(wrong(
                console,
                key,
                b": no device of this pad is listed; from=FILE names a recording\n",
            ));
        }
        let asked = seen.request(console)?;
        return test_held(console, path, pad.id, asked.or_of(pad));
    }
    let asked = seen.request(console)?;
    test_held(console, path, id_named(console, key)?, asked)
}

// The arguments of the command test after the store and the UUID.
use crate::held_maps::Lists;
use crate::map_changes::{is_change, parse_count};
use desk::arguments::is_party;
use desk::codes::{Codes, Kind, codes_named};
use desk::console::{Console, argument, argument_count};
use desk::fields::{after, before};
use desk::files::arg_space;
use desk::help::wrong_use;
use desk::say::{Failure, complain};
use desk::shown::complain_shown;
use desk_pads::plugged::Plugged;
use desk_records::parties::Caller;
use desk_records::records::{LineKey, View};
use desk_records::wrong::wrong;
use pad::two::Which;
use store::parties::Party;
use text::uuid::Uuid;

// What a key is given: nothing, one thing, or more than one.
#[derive(Clone, Copy, PartialEq, Eq)]
enum Given {
    Never,
    Once(usize),
    Often,
}

impl Given {
    fn and(self, n: usize) -> Given {
        match self {
            Given::Never => Given::Once(n),
            _ => Given::Often,
        }
    }

    // Where it is not given more than once.
    fn once(self, console: &Console) -> Result<Option<usize>, Failure> {
        match self {
            Given::Never => Ok(None),
            Given::Once(n) => Ok(Some(n)),
            Given::Often => Err(wrong_use(console, b"test")),
        }
    }
}

// Which arguments name the recordings and the second pad's UUID; which give the second pad lists of its own; after how
// many records it ends; one that is about a second pad; and whether all were understood.
#[derive(Clone, Copy)]
struct Named {
    stream: Given,
    beside: Given,
    uuid: Given,
    buttons: Given,
    axes: Given,
    limit: Given,
    second: Option<usize>,
    understood: Result<(), Failure>,
}

// What the arguments from `from` on say, as far as they were understood.
#[derive(Clone, Copy)]
pub struct Seen {
    buttons: Option<Codes>,
    axes: Option<Codes>,
    other_buttons: Option<Codes>,
    other_axes: Option<Codes>,
    caller: Caller,
    named: Named,
    from: usize,
}

// What they ask for: the first pad's codes, and the lists that the second has of its own; whose lines they go by; which
// arguments name the recordings and the second pad's UUID; and after how many records it ends. They stand from `from` on.
#[derive(Clone, Copy)]
pub struct Request {
    pub first: Lists,
    pub buttons: Option<Codes>,
    pub axes: Option<Codes>,
    pub party: Party,
    pub stream: usize,
    pub beside: Option<usize>,
    pub uuid: Option<usize>,
    pub limit: Option<usize>,
    pub from: usize,
}

// What is asked for, and the store whose lines it goes by.
#[derive(Clone, Copy)]
pub struct Test<'a> {
    pub store: View<'a>,
    pub asked: &'a Request,
}

impl Test<'_> {
    // The line of its party under a UUID.
    pub fn key(self, id: Uuid) -> LineKey {
        LineKey {
            party: self.asked.party,
            id,
        }
    }
}

fn unknown(console: &Console, arg: &[u8]) -> Failure {
    complain_shown(console, arg);
    complain(
        console,
        b": here the arguments are buttons=.., axes=.., party=.., from=FILE, events=N, seconds=N and\n",
    );
    complain(
        console,
        b"after=N:UUID; for a second pad with=FILE, uuid2=UUID, buttons2=.., axes2=.. and after2=N:UUID\n",
    );
    Failure::Trouble
}

// `after=2:UUID`
fn change_given(console: &Console, arg: &[u8]) -> Result<(), Failure> {
    if is_change(arg) {
        return Ok(());
    }
    Err(wrong(
        console,
        arg,
        b": a change of map is N:UUID, a number of records with one to nine digits, and a UUID\n",
    ))
}

// `events=20`
fn limit_given(console: &Console, arg: &[u8]) -> Result<usize, Failure> {
    parse_count(after(arg, b'='))
        .filter(|n| *n != 0)
        .ok_or_else(|| {
            wrong(
                console,
                arg,
                b": a number of events has one to nine digits, and is not 0\n",
            )
        })
}

impl Named {
    // What the arguments from `from` on name.
    fn from_args(console: &Console, from: usize) -> Named {
        let mut named = Named {
            stream: Given::Never,
            beside: Given::Never,
            uuid: Given::Never,
            buttons: Given::Never,
            axes: Given::Never,
            limit: Given::Never,
            second: None,
            understood: Ok(()),
        };
        for i in from..argument_count(console) {
            let mut space = arg_space();
            let arg = argument(console, i, &mut space);
            if let Err(failure) = named.take(console, i, arg) {
                named.understood = Err(failure);
            }
        }
        named
    }

    // Takes argument `i`; what is not understood is said.
    fn take(&mut self, console: &Console, i: usize, arg: &[u8]) -> Result<(), Failure> {
        match before(arg, b'=') {
            b"from" => self.stream = self.stream.and(i),
            b"with" => self.beside = self.beside.and(i),
            b"events" => self.limit = self.limit.and(limit_given(console, arg)?),
            b"buttons" | b"axes" => {}
            b"after" => change_given(console, arg)?,
            _ if is_party(arg) => {}
            key => return self.take_second(console, i, key, arg),
        }
        Ok(())
    }

    // An argument about the second pad.
    fn take_second(
        &mut self,
        console: &Console,
        i: usize,
        key: &[u8],
        arg: &[u8],
    ) -> Result<(), Failure> {
        match key {
            b"uuid2" => self.uuid = self.uuid.and(i),
            b"buttons2" => self.buttons = self.buttons.and(i),
            b"axes2" => self.axes = self.axes.and(i),
            b"after2" => {
                self.second = Some(i);
                return change_given(console, arg);
            }
            _ => return Err(unknown(console, arg)),
        }
        self.second = Some(i);
        Ok(())
    }
}

// A list that was understood, where it is given.
fn own_list(given: Given, list: Option<Codes>) -> Result<Option<Codes>, Failure> {
    let codes = list.ok_or(Failure::Trouble)?;
    Ok((given != Given::Never).then_some(codes))
}

// An argument about a second pad, where none plays.
fn no_second(console: &Console, i: usize) -> Failure {
    let mut space = arg_space();
    wrong(
        console,
        argument(console, i, &mut space),
        b": there is no second pad; with=FILE names its recording\n",
    )
}

impl Seen {
    pub fn from_args(console: &Console, from: usize) -> Seen {
        Seen {
            buttons: codes_named(console, b"buttons", Kind::Button, from),
            axes: codes_named(console, b"axes", Kind::Axis, from),
            other_buttons: codes_named(console, b"buttons2", Kind::Button, from),
            other_axes: codes_named(console, b"axes2", Kind::Axis, from),
            named: Named::from_args(console, from),
            caller: Caller::named(console, from),
            from,
        }
    }

    // Whether no recording is named.
    pub fn has_no_stream(&self) -> bool {
        self.named.stream == Given::Never
    }

    // What is asked for, where the arguments are as they should be.
    pub fn request(&self, console: &Console) -> Result<Request, Failure> {
        let named = self.named;
        let first = Lists {
            buttons: self.buttons.ok_or(Failure::Trouble)?,
            axes: self.axes.ok_or(Failure::Trouble)?,
        };
        let buttons = own_list(named.buttons, self.other_buttons)?;
        let axes = own_list(named.axes, self.other_axes)?;
        let party = self.caller.party()?;
        named.understood?;
        let Some(stream) = named.stream.once(console)? else {
            return Err(wrong_use(console, b"test"));
        };
        let beside = named.beside.once(console)?;
        let uuid = named.uuid.once(console)?;
        let limit = named.limit.once(console)?;
        if let (None, Some(i)) = (beside, named.second) {
            return Err(no_second(console, i));
        }
        Ok(Request {
            first,
            buttons,
            axes,
            party,
            stream,
            beside,
            uuid,
            limit,
            from: self.from,
        })
    }
}

impl Request {
    // With a pad's lists, where the first pad is given none. The Request of mappings.rt, another struct, has the same.
    pub fn or_of(self, pad: Plugged) -> Request {
        Request {
            first: self.first.or_of(pad),
            ..self
        }
    }

    // A pad's codes. The second one has the first one's lists, where it has none of its own.
    pub fn lists(&self, which: Which) -> Lists {
        match which {
            Which::First => self.first,
            Which::Second => Lists {
                buttons: self.buttons.unwrap_or(self.first.buttons),
                axes: self.axes.unwrap_or(self.first.axes),
            },
        }
    }
}

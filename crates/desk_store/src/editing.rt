// The command edit: pairs of a line that is held, changed by arguments as `a:b1`.
use arrayvec::ArrayVec;
use desk::arguments::is_party;
use desk::console::{Console, argument, argument_count};
use desk::fields::{after, before, without};
use desk::files::{ARG_ROOM, StoreFile, arg_space};
use desk::help::wrong_use;
use desk::near::complain_near;
use desk::say::{Failure, complain, say};
use desk::shown::say_shown;
use desk::words::none;
use desk_pads::bound::say_lost;
use desk_pads::pairs::readable_status;
use desk_records::parties::Caller;
use desk_records::records::{LineKey, View};
use desk_records::refusals::{refused_by, refused_outcome};
use desk_records::targets::Target;
use desk_records::wrong::{id_named, wrong};
use line::parser::ErrorKind;
use line::refusal::Refusal;
use store::calls::{StoreError, insert};
use store::near::{Nearness, found_near};
use store::refusal::store_outcome;

// A line that is held: what stands before its first comma, its name, and its pairs with the commas between them.
#[derive(Clone, Copy)]
struct Parts<'a> {
    id: &'a [u8],
    name: &'a [u8],
    pairs: &'a [u8],
}

// A line that is written. It asks for no memory: putting one together can't run out of it.
type NewLine = ArrayVec<u8, ARG_ROOM>;

impl<'a> Parts<'a> {
    // None where the line has no name.
    fn of(held: &'a [u8]) -> Option<Parts<'a>> {
        let mut fields = held.splitn(3, |b| *b == b',');
        Some(Parts {
            id: fields.next()?,
            name: fields.next()?,
            pairs: fields.next().unwrap_or(b""),
        })
    }

    // Whether the line has a pair with that key.
    fn has_key(&self, key: &[u8]) -> bool {
        self.pairs
            .split_inclusive(|b| *b == b',')
            .any(|pair| key_of(without(pair, b',')) == key)
    }
}

fn key_of(pair: &[u8]) -> &[u8] {
    before(pair, b':')
}

// Puts a pair and a comma; None where it has no room.
fn push_pair(line: &mut NewLine, pair: &[u8]) -> Option<()> {
    line.try_extend_from_slice(pair).ok()?;
    line.try_push(b',').ok()
}

// Whether argument `i` is a pair with that key.
fn is_pair_of(console: &Console, key: &[u8], i: usize) -> bool {
    let mut space = arg_space();
    let arg = argument(console, i, &mut space);
    !is_party(arg) && key_of(arg) == key
}

// The first argument from `from` on that is a pair with that key. (desk's `argument_with` seeks `KEY=..`: one function for
// both would take the test as a closure, and a public function that calls one asks its callers for a `requires`.)
fn pair_with(console: &Console, key: &[u8], from: usize) -> Option<usize> {
    (from..argument_count(console)).find(|i| is_pair_of(console, key, *i))
}

// Puts an argument, unless its value is empty.
fn push_arg(line: &mut NewLine, arg: &[u8]) -> Option<()> {
    if after(arg, b':').is_empty() {
        return Some(());
    }
    push_pair(line, arg)
}

// Puts a pair of the held line, or the argument in its place.
fn push_held(console: &Console, line: &mut NewLine, pair: &[u8], from: usize) -> Option<()> {
    match pair_with(console, key_of(pair), from) {
        Some(i) => {
            let mut space = arg_space();
            push_arg(line, argument(console, i, &mut space))
        }
        None => push_pair(line, pair),
    }
}

// Puts argument `i` behind the others, where the held line has no such key.
fn push_new(console: &Console, line: &mut NewLine, held: &Parts, i: usize) -> Option<()> {
    let mut space = arg_space();
    let arg = argument(console, i, &mut space);
    if is_party(arg) || held.has_key(key_of(arg)) {
        return Some(());
    }
    push_arg(line, arg)
}

// UUID, name, and the pairs of the held line, changed by all arguments from `from` on; None where that is longer than a
// line may be.
fn edited(console: &Console, held: &Parts, from: usize) -> Option<NewLine> {
    let mut line: NewLine = ArrayVec::new();
    push_pair(&mut line, held.id)?;
    push_pair(&mut line, held.name)?;
    for pair in held.pairs.split_inclusive(|b| *b == b',') {
        push_held(console, &mut line, without(pair, b','), from)?;
    }
    for i in from..argument_count(console) {
        push_new(console, &mut line, held, i)?;
    }
    Some(line)
}

// The changed line, where it may be filed: the held one has a name, the new one is not too long, and is read.
fn new_line(console: &Console, former: &[u8], from: usize) -> Result<NewLine, Failure> {
    let Some(held) = Parts::of(former) else {
        let number = u8::from(ErrorKind::UnexpectedEnd);
        return Err(refused_by(console, Refusal::plain(number)));
    };
    let Some(line) = edited(console, &held, from) else {
        return Err(refused_by(console, StoreError::LineTooLong.refusal()));
    };
    readable_status(console, line.as_slice())?;
    Ok(line)
}

fn unchanged(console: &Console, failure: Failure) -> Failure {
    complain(console, b"nothing is changed\n");
    failure
}

// Whether a party holds a line under that UUID itself.
pub(crate) fn exact(console: &Console, store: View, key: LineKey) -> Result<(), Failure> {
    match found_near(store.index, store.text, key.party, key.id) {
        Ok(Some(Nearness::Exact)) => Ok(()),
        Ok(Some(Nearness::Near)) => {
            complain_near(console, key.id);
            Err(unchanged(console, Failure::Refused))
        }
        Ok(None) => Err(none(console)),
        Err(e) => Err(refused_by(console, e.refusal())),
    }
}

// Files the changed line.
fn file_line(
    console: &Console,
    file: &mut StoreFile,
    key: LineKey,
    line: &[u8],
) -> Result<(), Failure> {
    let inserted = insert(&mut file.index, &mut file.text, key.party, line);
    refused_outcome(console, store_outcome(inserted.answer))?;
    if View::from(&*file).line(key) == line {
        return Ok(());
    }
    complain(
        console,
        b"the line would be for another platform than Linux, and is not filed\n",
    );
    Err(Failure::Refused)
}

// The line as it was and as it is, and what is no longer bound.
fn say_edited(console: &Console, former: &[u8], line: &[u8]) {
    say(console, b"was: ");
    say_shown(console, former);
    say(console, b"\nnow: ");
    say_shown(console, line);
    say(console, b"\n");
    say_lost(console, former, line);
}

fn edit_held(console: &Console, target: Target, key: LineKey, from: usize) -> Result<(), Failure> {
    let former = target.load(console)?;
    let store = View::from(&former);
    exact(console, store, key)?;
    let held = store.line(key);
    let made = new_line(console, held, from).map_err(|failure| unchanged(console, failure))?;
    let line = made.as_slice();
    let mut file = former.clone()?;
    file_line(console, &mut file, key, line).map_err(|failure| unchanged(console, failure))?;
    target.replace(console, &former, &file)?;
    say_edited(console, held, line);
    Ok(())
}

// Whether argument `i` is a party or a pair, and the first with its key.
fn pair_given(console: &Console, i: usize, from: usize) -> Result<(), Failure> {
    let mut space = arg_space();
    let arg = argument(console, i, &mut space);
    let key = key_of(arg);
    if is_party(arg) {
        return Ok(());
    }
    let words: &[u8] = if key.is_empty() || key.len() == arg.len() {
        b": not of the form KEY:VALUE, as a:b1\n"
    } else if arg.contains(&b',') {
        b": one pair an argument, with no comma in it\n"
    } else if arg.contains(&b'\n') {
        b": a pair has no line end in it\n"
    } else if pair_with(console, key, from) != Some(i) {
        b": the key is given twice\n"
    } else {
        return Ok(());
    };
    Err(wrong(console, arg, words))
}

// `hub edit STORE UUID ..`; the pairs stand from argument `from` on.
pub fn edit_line(
    console: &Console,
    target: Target,
    key: &[u8],
    from: usize,
) -> Result<(), Failure> {
    target.may_change(console)?;
    let caller = Caller::named(console, from);
    if caller.others == 0 {
        return Err(wrong_use(console, b"edit"));
    }
    let party = caller.party()?;
    for i in from..argument_count(console) {
        pair_given(console, i, from)?;
    }
    let id = id_named(console, key)?;
    edit_held(console, target, LineKey { party, id }, from)
}

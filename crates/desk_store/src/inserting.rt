// The command insert.
use crate::census::count_lines;
use crate::choosing::{Choice, is_one};
use crate::reports::{Report, has_filed};
use desk::arguments::argument_with;
use desk::console::{Console, argument};
use desk::fields::after;
use desk::files::{arg_space, read_list};
use desk::help::wrong_use;
use desk::say::{Failure, say, say_number};
use desk::shown::say_shown;
use desk::words::none;
use desk_records::holding::lines_held;
use desk_records::parties::Caller;
use desk_records::records::View;
use desk_records::targets::Target;
use store::calls::insert;
use store::parties::Party;

fn insert_text(
    console: &Console,
    target: Target,
    party: Party,
    list: &[u8],
) -> Result<(), Failure> {
    let former = target.load(console)?;
    let mut file = former.clone()?;
    let inserted = insert(&mut file.index, &mut file.text, party, list);
    if has_filed(inserted.answer) {
        target.replace(console, &former, &file)?;
    }
    let store = View::from(&file);
    let report = Report {
        list,
        party,
        inserted,
        held: lines_held(View::from(&former)),
        store,
    };
    report.say(console)
}

// How many lines of a list are chosen.
fn say_chosen(console: &Console, lines: usize, all: usize, choice: &Choice) {
    say_number(console, lines);
    say(console, b" lines of ");
    say_number(console, all);
    match choice {
        Choice::Pads(_) => say(console, b" are of pads that are plugged in\n"),
        Choice::Text(wanted) => {
            say(console, b" have '");
            say_shown(console, wanted);
            say(console, b"' in name or UUID\n");
        }
    }
}

// The same of the lines that argument `only` chooses.
fn insert_matching(
    console: &Console,
    target: Target,
    party: Party,
    list: &[u8],
    only: usize,
) -> Result<(), Failure> {
    let mut space = arg_space();
    let wanted = after(argument(console, only, &mut space), b'=');
    let choice = Choice::named(console, wanted)?;
    let lines = choice.lines_of(console.alloc(), list)?;
    say_chosen(console, count_lines(&lines), count_lines(list), &choice);
    if lines.is_empty() {
        return Err(none(console));
    }
    insert_text(console, target, party, &lines)
}

// `hub insert STORE FILE ..`; the party and `only=` stand from argument `from` on.
pub fn insert_list(
    console: &Console,
    target: Target,
    path: &[u8],
    from: usize,
) -> Result<(), Failure> {
    target.may_change(console)?;
    let caller = Caller::named(console, from);
    let only = argument_with(console, b"only", from);
    if !is_one(caller.others, only.is_some()) {
        return Err(wrong_use(console, b"insert"));
    }
    let party = caller.party()?;
    let list = read_list(console, path)?;
    match only {
        Some(i) => insert_matching(console, target, party, &list, i),
        None => insert_text(console, target, party, &list),
    }
}

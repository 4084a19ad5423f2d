// The command line for support staff, with a hall's store file, lists of mapping lines and a pad's codes.
#![tactic(auto)]

use desk::changing::{Held, held_from, not_held};
use desk::console::{Console, argument, argument_count, is_too_long, print};
use desk::fields::{after, before};
use desk::files::{Size, arg_space};
use desk::help::wrong_use;
use desk::say::{Failure, STATUS, complain, complain_memory, exit_status};
use desk::{advice, help};
use desk_pads::{elements, layout, plugged, tidying};
use desk_records::targets::Target;
use desk_records::{holding, shares};
use desk_store::{
    demo, editing, exporting, filing, inserting, lint, mappings, removing, saving, testing,
};
use std::process::ExitCode;
use text::decimal::parse_u16;

// What a shell says of a program that SIGPIPE ended.
const READER_GONE: u8 = 141;

// A command: its name, how many arguments follow it, and the first two of them; the place of its name among all
// arguments; and what the script `hub` says of the store, which is the first argument where there is one.
#[derive(Clone, Copy)]
struct Call<'a> {
    name: &'a [u8],
    given: usize,
    a: &'a [u8],
    b: &'a [u8],
    at: usize,
    held: Held,
}

impl<'a> Call<'a> {
    // The store that the command changes.
    fn target(&self) -> Target<'a> {
        Target {
            path: self.a,
            held: self.held,
        }
    }

    // The place behind the first `n` arguments.
    fn behind(&self, n: usize) -> usize {
        self.at.wrapping_add(n).wrapping_add(1)
    }

    // Whether one of the three asks for help.
    fn asks_for_help(&self) -> bool {
        is_help(self.name) || is_help(self.a) || is_help(self.b)
    }
}

fn is_help(arg: &[u8]) -> bool {
    matches!(arg, b"--help" | b"-h")
}

// `hub help COMMAND`, `hub help elements`, `hub help NUMBER`
fn help_about(console: &Console, what: &[u8]) -> Result<(), Failure> {
    if what == b"elements".as_slice() {
        elements::help_on_elements(console);
        return Ok(());
    }
    match parse_u16(what) {
        Some(n) => advice::help_on_refusal(console, usize::from(n)),
        None => help::help_on(console, what),
    }
}

// `hub --help`, `hub COMMAND --help`
fn run_help(console: &Console, call: &Call) -> Result<(), Failure> {
    if is_help(call.name) {
        help::help(console);
        return Ok(());
    }
    help::help_on(console, call.name)
}

// `hub pad`, `hub pad from=FILE`
fn run_pad(console: &Console, call: &Call) -> Result<(), Failure> {
    let copy = after(call.a, b'=');
    if call.a.is_empty() {
        return plugged::list_pads(console, b"");
    }
    if before(call.a, b'=') == b"from".as_slice() && !copy.is_empty() {
        return plugged::list_pads(console, copy);
    }
    Err(wrong_use(console, b"pad"))
}

// `hub default ..`
fn run_default(console: &Console, call: &Call) -> Result<(), Failure> {
    if plugged::is_pad_name(call.a) {
        return mappings::default_pad(console, call.a, call.behind(1));
    }
    if call.given < 3 && call.a == b"layout".as_slice() {
        return layout::default_layout(console, call.b);
    }
    mappings::default_mapping(console, call.behind(0))
}

// The commands that change a store.
fn change_store(console: &Console, call: &Call) -> Result<(), Failure> {
    let (target, key, from) = (call.target(), call.b, call.behind(2));
    match (call.name, call.given) {
        (b"new", 1) => filing::new_store(console, target, Size::Small),
        (b"new", 2) if key == b"large".as_slice() => {
            filing::new_store(console, target, Size::Large)
        }
        (b"grow", 1) => filing::grow_store(console, target),
        (b"insert", 2..) => inserting::insert_list(console, target, key, from),
        (b"save", 3..) => saving::save_mapping(console, target, key, from),
        (b"share", 3) => shares::give_share(console, target, key, from),
        (b"edit", 3..) => editing::edit_line(console, target, key, from),
        (b"remove", 2..) => removing::remove_line(console, target, key, from),
        (b"clear", 1) => filing::clear_store(console, target),
        (b"undo", 1) => filing::undo(console, target),
        _ => Err(wrong_use(console, call.name)),
    }
}

// The commands on a store: those that look in stand here.
fn run_on_store(console: &Console, call: &Call) -> Result<(), Failure> {
    let (path, key, from) = (call.a, call.b, call.behind(2));
    match (call.name, call.given) {
        (b"find", 2..) => holding::find_line(console, path, key, from),
        (b"list", 1) => holding::list_store(console, path),
        (b"list", 2) if key == b"long".as_slice() => holding::list_long(console, path),
        (b"export", 1..) => exporting::export_store(console, path, call.behind(1)),
        (b"check", 1) => holding::check_store(console, path),
        (b"shares", 1) => shares::list_shares(console, path),
        (b"show", 2..) => mappings::show_mapping(console, path, key, from),
        (b"test", 2..) => testing::test_mapping(console, path, key, from),
        _ => change_store(console, call),
    }
}

// Help, or a command; those that need no store stand here.
fn run_command(console: &Console, call: &Call) -> Result<(), Failure> {
    if call.asks_for_help() {
        return run_help(console, call);
    }
    match (call.name, call.given) {
        (b"--version", _) => {
            help::version(console);
            Ok(())
        }
        (b"help", 1) => help_about(console, call.a),
        (b"help", 0) => {
            help::help(console);
            Ok(())
        }
        (b"lint", 1) => lint::lint_list(console, call.a),
        (b"tidy", 1) => tidying::tidy_list(console, call.a),
        (b"default", _) => run_default(console, call),
        (b"pad", 0..=1) => run_pad(console, call),
        (b"demo", 0) => demo::demo(console),
        _ => run_on_store(console, call),
    }
}

// Runs the command at argument `at`.
fn run(console: &Console, held: Held, at: usize) -> Result<(), Failure> {
    let count = argument_count(console);
    if count <= at {
        help::help(console);
        return Ok(());
    }
    let mut name = arg_space();
    let mut a = arg_space();
    let mut b = arg_space();
    let call = Call {
        name: argument(console, at, &mut name),
        given: count - at - 1,
        a: argument(console, at.wrapping_add(1), &mut a),
        b: argument(console, at.wrapping_add(2), &mut b),
        at,
        held,
    };
    run_command(console, &call)
}

// Whether an argument is no longer than the most.
fn has_room(console: &Console, i: usize) -> bool {
    let mut space = arg_space();
    !is_too_long(console, i, &mut space)
}

fn run_all(console: &Console, held: Held, at: usize) -> Result<(), Failure> {
    if (1..argument_count(console)).all(|i| has_room(console, i)) {
        return run(console, held, at);
    }
    complain(console, b"an argument may have at most 16384 bytes\n");
    Err(Failure::Trouble)
}

// The status with which the program itself ends.
fn exit_code(console: &Console) -> ExitCode {
    if console.is_closed() {
        return ExitCode::from(READER_GONE);
    }
    ExitCode::SUCCESS
}

// The program ends with status 0, or as one whose reader has gone. The script `hub` starts it with `--script`, what it
// says of the store (see changing.rt) and the command, and takes the command's status from descriptor 3.
fn main(rt: HostRuntime) -> ExitCode {
    let console = Console::new(rt);
    let mut space = arg_space();
    if argument(&console, 1, &mut space) == b"--script".as_slice() {
        console.serve_script();
        let done = run_all(&console, held_from(&console, 2), 6);
        complain_memory(&console, done);
        print(&console, STATUS, exit_status(done));
    } else {
        complain_memory(&console, run_all(&console, not_held(), 1));
    }
    exit_code(&console)
}

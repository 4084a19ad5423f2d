// Help, and what is said after a command that is none or has other arguments than it should.
use crate::console::Console;
use crate::manual::page;
use crate::say::{ERR, Failure, complain, say};
use crate::shown::complain_shown;
use crate::suggest::Near;

// The commands that are suggested.
const COMMANDS: [&[u8]; 22] = [
    b"new", b"grow", b"insert", b"save", b"edit", b"remove", b"find", b"show", b"test", b"list",
    b"export", b"check", b"share", b"shares", b"clear", b"undo", b"lint", b"tidy", b"pad",
    b"default", b"demo", b"help",
];

pub fn help(console: &Console) {
    say(
        console,
        b"hub: mapping lines of game pads, in a hall's store file

  hub new STORE [large]          makes a fresh store file
  hub grow STORE                 makes a store file large, with the lines that it holds
  hub insert STORE FILE          files the lines of a list
  hub save STORE UUID NAME ..    builds a mapping and files it
  hub edit STORE UUID PAIR ..    changes pairs of the line held under a UUID
  hub remove STORE UUID          takes the line held under a UUID out
  hub find STORE UUID|TEXT       prints the line held under a UUID, or those with TEXT in the name
  hub show STORE UUID ..         reads a line that is held, and prints its map, or its pairs
  hub test STORE UUID ..         tells what the events of a pad give by that line
  hub list STORE [long]          prints the pads held by name, or the lines; and the room left
  hub export STORE               prints the lines for other programs
  hub check STORE                says whether the store is sound
  hub share STORE PARTY BYTES    gives a party a share of the text that others can't fill
  hub shares STORE               says what each party uses of the text, and its share
  hub clear STORE                empties the store
  hub undo STORE                 takes the last change of the store back
  hub lint FILE                  reads every line of a list, and shows the refused ones
  hub tidy FILE                  prints a list with the pairs of each line by hand side
  hub pad                        prints the pads that are plugged in, with UUID and codes
  hub default ..                 prints the default map of a pad, or the layout of its buttons
  hub demo                       shows the main job on a small list
  hub help COMMAND               says more about a command
  hub help elements              prints the names of elements; hub help 21, what a refusal means

With a pad plugged in, pad:1 stands for its UUID and its lists in save, show, test and default.
A league organiser's lines are kept apart from the hall's: insert, save, edit, remove, find, show,
test and export take party=NUMBER, from 1 to 255.
A refusal prints 'refused NUMBER: meaning'. The exit status is 0 where all was done,
1 where something was refused or not found, 2 for wrong use, for trouble with a file and
where the output can't be written. Refusals and trouble go to standard error.
",
    );
}

// `hub --version`
pub fn version(console: &Console) {
    say(console, b"hub 0.1.0 (Raspteal)\n");
}

fn no_command(console: &Console, command: &[u8]) -> Failure {
    complain_shown(console, command);
    complain(console, b": no such command (hub help lists them)");
    let mut near = Near::to(command);
    for name in COMMANDS {
        near.offer(name);
    }
    near.put(console, ERR);
    complain(console, b"\n");
    Failure::Trouble
}

// `hub help COMMAND`
pub fn help_on(console: &Console, command: &[u8]) -> Result<(), Failure> {
    let Some(text) = page(command) else {
        return Err(no_command(console, command));
    };
    say(console, text);
    Ok(())
}

// After a command that is none, or has the wrong number of arguments.
pub fn wrong_use(console: &Console, command: &[u8]) -> Failure {
    let Some(text) = page(command) else {
        return no_command(console, command);
    };
    complain(console, text);
    complain(console, b"The arguments are not as above.\n");
    Failure::Trouble
}

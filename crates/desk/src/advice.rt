// What can be done about a refusal: `hub help 21`.
use crate::console::Console;
use crate::say::{ERR, Failure, OUT, put, put_value, say};
use crate::words::{put_refused, row_on};

// One line for each number, from 1 on.
const ADVICE: [&[u8]; 27] = [
    b"write the pad's UUID before the first comma: 32 hexadecimal digits, or 36 characters with hyphens",
    b"a line is UUID,NAME,PAIRS: write a comma after the UUID, then the name",
    b"write each pair as KEY:VALUE, as a:b0, with a comma between two pairs",
    b"write bN for button N, aN for axis N (+a2, -a2, a2~ too), hH.D for a hat; numbers count from 0",
    b"write the key as 'hub help elements' has it under SDL name, small letters and all, as leftx:a0",
    b"write the key as 'hub help elements' has it under SDL name, small letters and all, as a:b0",
    b"a hat's directions are 1 up, 2 right, 4 down and 8 left, as dpup:h0.1",
    b"write a value behind the colon, or take the pair out",
    b"mend the first field (hub help 1, hub help 2); nothing behind it is read",
    b"write the list as UTF-8; the place counts bytes from 0",
    b"a map holds 256 codes: take pairs out of the line",
    b"give at most 1024 codes in buttons= and as many in axes=",
    b"choose a name without a comma, which would end it in the line",
    b"name an element of 'hub help elements'; Unknown is none that can be bound",
    b"an element that is a button takes a code of buttons=, one that is an axis a code of axes=",
    b"bind an element that has an SDL name in 'hub help elements'; for a hat insert a line, as dpup:h0.1",
    b"shorten the name to 8192 bytes",
    b"lend the call a longer output; hub itself lends enough for every line",
    b"bring a former store back (hub undo, or a copy), or empty this one (hub clear)",
    b"shorten the line to 16384 bytes, or take it out of the list",
    b"make the store large (hub grow), take lines out (hub remove), or insert only the hall's own pads (only=)",
    b"choose a name without a line end and without 'platform:', which insert reads as a line's platform",
    b"lend shorter buffers; those of a store file, large or not, are short enough",
    b"name an organiser, party=1 to party=255, or leave party= out: then it is the hall's line",
    b"make the store large (hub grow), take lines out (hub remove), or lower a share (hub share); see hub shares",
    b"give less, lower another share (hub share), or make the store large (hub grow); see hub shares",
    b"record one pad at a time: no pad has more than 256 codes",
];

// The advice on a refusal, in a line of its own.
pub fn put_advice(console: &Console, fd: i32, number: usize) {
    if let Some(advice) = row_on(&ADVICE, number) {
        put(console, fd, b"  ");
        put(console, fd, advice);
        put(console, fd, b"\n");
    }
}

// `hub help 21`
pub fn help_on_refusal(console: &Console, number: usize) -> Result<(), Failure> {
    // Each number that has a meaning has advice.
    if row_on(&ADVICE, number).is_none() {
        put_value(
            console,
            ERR,
            format_args!("no refusal has the number {number}\n"),
        );
        return Err(Failure::Trouble);
    }
    put_refused(console, OUT, number);
    say(console, b"\n");
    put_advice(console, OUT, number);
    Ok(())
}

// What became of the records of a recording, counted.
use crate::console::Console;
use crate::say::{Failure, OUT, put_value, say_count};

// How many records told an event; how many of a button or an axis told none, and why; how many are of other kinds; and
// how often a map was changed, and how many events that told.
#[derive(Clone, Copy, Default)]
pub struct Tally {
    pub told: usize,
    pub unmapped: usize,
    pub valueless: usize,
    pub kept: usize,
    pub left_out: usize,
    pub repeats: usize,
    pub beyond: usize,
    pub refused: usize,
    pub others: usize,
    pub changes: usize,
    pub changed: usize,
}

// One more.
pub fn count_one(n: &mut usize) {
    *n = n.wrapping_add(1);
}

// How many events the changes of map told.
fn say_changes(console: &Console, tally: Tally) {
    let Tally {
        changes,
        changed,
        ..
    } = tally;
    if changes != 0 {
        put_value(
            console,
            OUT,
            format_args!("{changed} events more at {changes} changes of map\n"),
        );
    }
}

// What became of the records.
pub fn say_tally(console: &Console, tally: Tally) {
    let untold: [(usize, &[u8]); 7] = [
        (tally.unmapped, b" of codes that are not in the map"),
        (tally.valueless, b" of values that the line gives none"),
        (tally.kept, b" of elements that keep their value"),
        (tally.left_out, b" of elements that are left out"),
        (tally.repeats, b" of buttons that repeat"),
        (tally.beyond, b" of values that no button or axis has"),
        (tally.refused, b" of codes over the 256 that a pad holds"),
    ];
    let all = untold
        .iter()
        .fold(0usize, |all, (n, _)| all.wrapping_add(*n));
    let Tally { told, others, .. } = tally;
    put_value(
        console,
        OUT,
        format_args!(
            "{told} events told, {all} without one, {others} records of other kinds skipped\n"
        ),
    );
    for (n, words) in untold {
        say_count(console, n, words);
    }
    say_changes(console, tally);
}

// Refused where a value is one that no button or axis has, and where a pad has too many codes.
pub fn tally_status(tally: Tally) -> Result<(), Failure> {
    if 0 < tally.beyond || 0 < tally.refused {
        return Err(Failure::Refused);
    }
    Ok(())
}

// The command export: lines for other programs.
use crate::choosing::is_one;
use desk::arguments::has_word;
use desk::console::Console;
use desk::files::load;
use desk::help::wrong_use;
use desk::matching::has_text;
use desk::say::{Failure, OUT, put_uuid, say};
use desk_records::holding::sound;
use desk_records::parties::{Caller, owner_of};
use desk_records::records::{View, uuid_of};

// A line, or its UUID in 32 digits and the rest of it. `digits` is the word that was typed or was not: a line has one of
// two forms, and nothing more comes with either.
fn say_spelled(console: &Console, line: &[u8], digits: bool) {
    if !digits {
        say(console, line);
        return;
    }
    let key = line.iter().position(|b| *b == b',').unwrap_or(line.len());
    put_uuid(console, OUT, uuid_of(line));
    say(console, &line[key..]);
}

// Whether pairs may follow as a line stands: a comma ends its name, and its last pair.
fn ends_open(line: &[u8]) -> bool {
    1 < line.iter().filter(|b| **b == b',').count() && line.last() == Some(&b',')
}

// The platform, where a line names none and has a name that it can stand behind.
fn say_platform(console: &Console, line: &[u8]) {
    if has_text(line, b"platform:") {
        return;
    }
    if !line.contains(&b',') {
        return;
    }
    if !ends_open(line) {
        say(console, b",");
    }
    say(console, b"platform:Linux,");
}

fn say_exported(console: &Console, line: &[u8], digits: bool) {
    say_spelled(console, line, digits);
    say_platform(console, line);
    say(console, b"\n");
}

// `hub export STORE ..`
pub fn export_store(console: &Console, path: &[u8], from: usize) -> Result<(), Failure> {
    let caller = Caller::named(console, from);
    let digits = has_word(console, b"digits", from);
    if !is_one(caller.others, digits) {
        return Err(wrong_use(console, b"export"));
    }
    let party = caller.party()?;
    let file = load(console, path)?;
    let store = View::from(&file);
    sound(console, store, party)?;
    for record in store.records() {
        if let Some(line) = record.line() {
            if record.owner == owner_of(party) {
                say_exported(console, line, digits);
            }
        }
    }
    Ok(())
}

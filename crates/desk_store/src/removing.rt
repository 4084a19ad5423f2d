// The command remove: takes a line out of a store.
use crate::editing::exact;
use desk::console::Console;
use desk::help::wrong_use;
use desk::say::{Failure, say};
use desk_records::holding::{say_shown_line, say_sound};
use desk_records::parties::Caller;
use desk_records::records::{LineKey, View};
use desk_records::refusals::refused_by;
use desk_records::targets::Target;
use desk_records::wrong::id_named;
use store::removing::remove;

// Takes the line of a key out of a store, which `exact` has found there.
fn remove_held(console: &Console, target: Target, key: LineKey) -> Result<(), Failure> {
    let old = target.load(console)?;
    let former = View::from(&old);
    exact(console, former, key)?;
    let mut file = old.clone()?;
    remove(&mut file.index, &mut file.text, key.party, key.id).map_err(|e| refused_by(
        console,
        e.refusal(),
    ))?;
    target.replace(console, &old, &file)?;
    say(console, b"removed: ");
    say_shown_line(console, former.line(key));
    say_sound(console, View::from(&file))
}

// `hub remove STORE UUID ..`; the party stands from argument `from` on.
pub fn remove_line(
    console: &Console,
    target: Target,
    key: &[u8],
    from: usize,
) -> Result<(), Failure> {
    target.may_change(console)?;
    let caller = Caller::named(console, from);
    if caller.others != 0 {
        return Err(wrong_use(console, b"remove"));
    }
    let party = caller.party()?;
    let id = id_named(console, key)?;
    remove_held(console, target, LineKey { party, id })
}

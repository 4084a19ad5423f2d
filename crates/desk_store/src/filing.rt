// The commands that change a whole store: new, grow, clear, undo.
use desk::changing::load_old;
use desk::console::Console;
use desk::files::{Size, StoreFile, stands};
use desk::say::{Failure, complain, say};
use desk::shown::{complain_shown, say_shown};
use desk_records::holding::{say_extent, say_sound, sound};
use desk_records::records::View;
use desk_records::refusals::refused_outcome;
use desk_records::targets::Target;
use store::calls::clear;
use store::parties::Party;
use store::refusal::store_outcome;

// `hub new STORE`, `hub new STORE large`
pub fn new_store(console: &Console, target: Target, size: Size) -> Result<(), Failure> {
    target.may_change(console)?;
    if stands(console, target.path) {
        complain_shown(console, target.path);
        complain(console, b": the file stands already, and is left alone\n");
        return Err(Failure::Trouble);
    }
    target.place(console, &StoreFile::new(console.alloc(), size)?)?;
    say(
        console,
        match size {
            Size::Small => b"a fresh store: ".as_slice(),
            Size::Large => b"a fresh large store: ",
        },
    );
    say_shown(console, target.path);
    say(console, b"\n");
    Ok(())
}

// `hub grow STORE`
pub fn grow_store(console: &Console, target: Target) -> Result<(), Failure> {
    target.may_change(console)?;
    let former = target.load(console)?;
    if former.is_large() {
        complain_shown(console, target.path);
        complain(
            console,
            b": the store is large already, and is left alone\n",
        );
        return Err(Failure::Trouble);
    }
    sound(console, View::from(&former), Party::Hall)?;
    let file = former.grown()?;
    target.replace(console, &former, &file)?;
    say(console, b"grown: ");
    say_extent(console, View::from(&file));
    Ok(())
}

// `hub clear STORE`
pub fn clear_store(console: &Console, target: Target) -> Result<(), Failure> {
    target.may_change(console)?;
    let former = target.load(console)?;
    let mut file = former.clone()?;
    let answer = clear(&mut file.index, &mut file.text);
    refused_outcome(console, store_outcome(answer))?;
    target.replace(console, &former, &file)?;
    say(
        console,
        b"cleared: 0 lines held; hub undo brings the former ones back\n",
    );
    Ok(())
}

// The store becomes the one of STORE.old, and STORE.old the one that it was.
fn swap(console: &Console, target: Target, old: &StoreFile) -> Result<(), Failure> {
    let file = target.load(console)?;
    if file == *old {
        complain(
            console,
            b"STORE.old holds the same as the store; there is nothing to undo.\n",
        );
        return Err(Failure::Trouble);
    }
    target.replace(console, &file, old)?;
    say(console, b"undone; hub undo once more takes this back\n");
    // A store that is not sound is put back all the same, and what it is is said.
    let _ = say_sound(console, View::from(old));
    Ok(())
}

// Brings STORE.old back where there is no store.
fn restore(console: &Console, target: Target, old: &StoreFile) -> Result<(), Failure> {
    target.place(console, old)?;
    say(console, b"the store was gone, and is STORE.old again\n");
    let _ = say_sound(console, View::from(old));
    Ok(())
}

// `hub undo STORE`
pub fn undo(console: &Console, target: Target) -> Result<(), Failure> {
    target.may_change(console)?;
    let old = load_old(console, target.path)?;
    if stands(console, target.path) {
        return swap(console, target, &old);
    }
    restore(console, target, &old)
}

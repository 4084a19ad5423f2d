// How a store is changed. The script `hub` holds the lock of the store's folder while a command that changes it runs.
// The new store is written into STORE.new, the one that it takes the place of into STORE.old.new, and both are synced;
// then STORE.old.new becomes STORE.old and STORE.new becomes STORE, by a rename each, and the folder is synced. A file
// of those names that a broken-off hub left is removed first. Where the reader of an output has gone, nothing is changed.
use crate::codes::parse_code;
use crate::console::{Console, argument, create_new, open_read, remove_file, rename};
use crate::files::{Halves, StoreFile, arg_space, load};
use crate::say::{Failure, complain};
use crate::shown::fail;
use arrayvec::ArrayVec;
use std::fs::{File, Permissions};
use std::io;
use std::io::{Error, ErrorKind, Write};
use std::os::unix::fs::{PermissionsExt, fchown};

// The room for a path that is made of an argument.
const PATH_ROOM: usize = 16400;

// The mode, the owner and the group of a file.
#[derive(Clone, Copy)]
pub struct Access {
    pub mode: u32,
    pub owner: u32,
    pub group: u32,
}

// What the script says: whether it holds the lock, and what the new store gets of the former one, where there is one.
// `locked` stays a flag: it says one thing by itself, and no value stands beside it that counts only where it is set.
#[derive(Clone, Copy, Default)]
pub struct Held {
    pub locked: bool,
    pub access: Option<Access>,
}

pub fn not_held() -> Held {
    Held::default()
}

fn code_arg(console: &Console, i: usize) -> Option<u32> {
    let mut space = arg_space();
    parse_code(argument(console, i, &mut space))
}

// Mode, owner and group, in hexadecimal, of the arguments from `at` on; None where they are hyphens.
fn access_from(console: &Console, at: usize) -> Option<Access> {
    let mode = code_arg(console, at)?;
    let owner = code_arg(console, at.wrapping_add(1))?;
    let group = code_arg(console, at.wrapping_add(2))?;
    Some(Access {
        mode: mode % 4096,
        owner,
        group,
    })
}

// What the arguments from `at` on say: `locked` or `unlocked`, then mode, owner and group in hexadecimal, or a hyphen
// for each.
pub fn held_from(console: &Console, at: usize) -> Held {
    let mut space = arg_space();
    Held {
        locked: matches!(argument(console, at, &mut space), b"locked"),
        access: access_from(console, at.wrapping_add(1)),
    }
}

// Whether a command may change a store: only where the lock is held.
pub fn may_change(console: &Console, held: Held) -> Result<(), Failure> {
    if held.locked {
        return Ok(());
    }
    complain(
        console,
        b"A store is changed by the script hub, which holds its lock.\n",
    );
    Err(Failure::Trouble)
}

// STORE with an ending, as far as it has room. Making one can't fail: it asks for no memory.
fn path_of(store: &[u8], ending: &[u8]) -> ArrayVec<u8, PATH_ROOM> {
    let mut path = ArrayVec::new();
    let _ = path.write_all(store);
    let _ = path.write_all(ending);
    path
}

// Owner, group and mode of the file; where the owner can't be given, the group.
fn keep(console: &Console, file: &File, held: Held) -> io::Result<()> {
    let Some(access) = held.access else {
        return Ok(());
    };
    if fchown(file, Some(access.owner), Some(access.group)).is_err() {
        complain(
            console,
            b"The store's owner can't be kept: the new store is yours.\n",
        );
        if console.is_closed() {
            return Err(Error::from(ErrorKind::BrokenPipe));
        }
        let _ = fchown(file, None, Some(access.group));
    }
    file.set_permissions(Permissions::from_mode(access.mode))
}

// Writes both halves of a store.
fn fill(mut file: File, store: Halves) -> io::Result<()> {
    file.write_all(store.index)?;
    file.write_all(store.text)?;
    file.sync_all()
}

// The folder of a file, by its path up to the last slash.
fn folder_of(path: &[u8]) -> &[u8] {
    path.iter()
        .rposition(|b| *b == b'/')
        .and_then(|n| path.get(..=n))
        .unwrap_or(b".")
}

// A store that is changed, by the name of its file.
#[derive(Clone, Copy)]
struct Change<'a> {
    console: &'a Console,
    store: &'a [u8],
    held: Held,
}

impl<'a> Change<'a> {
    // Where the reader of an output has gone, nothing is changed.
    fn begin(console: &'a Console, store: &'a [u8], held: Held) -> Result<Change<'a>, Failure> {
        if console.is_closed() {
            return Err(Failure::Trouble);
        }
        Ok(Change {
            console,
            store,
            held,
        })
    }

    // What is not there needs no removal.
    fn remove(self, ending: &[u8]) {
        let _ = remove_file(self.console, path_of(self.store, ending).as_slice());
    }

    fn rename(self, from: &[u8], to: &[u8]) -> io::Result<()> {
        rename(
            self.console,
            path_of(self.store, from).as_slice(),
            path_of(self.store, to).as_slice(),
        )
    }

    // Writes a store beside the store.
    fn write(self, ending: &[u8], file: Halves) -> io::Result<()> {
        self.remove(ending);
        let new = create_new(self.console, path_of(self.store, ending).as_slice())?;
        keep(self.console, &new, self.held)?;
        fill(new, file)
    }

    fn sync_folder(self) -> io::Result<()> {
        open_read(self.console, folder_of(self.store))?.sync_all()
    }

    // A folder that can't be synced is left to the system.
    fn place_new(self) -> io::Result<()> {
        self.rename(b".new", b"")?;
        let _ = self.sync_folder();
        Ok(())
    }

    fn place(self, file: Halves) -> io::Result<()> {
        self.write(b".new", file)?;
        self.place_new()
    }

    fn replace(self, former: Halves, file: Halves) -> io::Result<()> {
        self.write(b".new", file)?;
        self.write(b".old.new", former)?;
        self.rename(b".old.new", b".old")?;
        self.place_new()
    }

    // Says why the store could not be written, and leaves nothing beside it.
    fn unwritten(self, error: Error) -> Failure {
        fail(self.console, self.store, error);
        complain(
            self.console,
            b"The new store could not be written; the store is as it was.\n",
        );
        self.remove(b".new");
        self.remove(b".old.new");
        Failure::Trouble
    }
}

// Puts a store where there is none.
pub fn place(console: &Console, store: &[u8], held: Held, file: Halves) -> Result<(), Failure> {
    let change = Change::begin(console, store, held)?;
    change.place(file).map_err(|error| change.unwritten(error))
}

// Puts a store in the place of a former one, which is kept as STORE.old.
pub fn replace(
    console: &Console,
    store: &[u8],
    held: Held,
    former: Halves,
    file: Halves,
) -> Result<(), Failure> {
    if former == file {
        return Ok(());
    }
    let change = Change::begin(console, store, held)?;
    change
        .replace(former, file)
        .map_err(|error| change.unwritten(error))
}

// Reads STORE.old.
pub fn load_old(console: &Console, store: &[u8]) -> Result<StoreFile, Failure> {
    load(console, path_of(store, b".old").as_slice())
}

// The store that a command changes.
use desk::changing::{Held, may_change, place, replace};
use desk::console::Console;
use desk::files::{Halves, StoreFile, load};
use desk::say::Failure;

// Its file's name, and what the script `hub` says of it.
#[derive(Clone, Copy)]
pub struct Target<'a> {
    pub path: &'a [u8],
    pub held: Held,
}

impl Target<'_> {
    // Only where the lock is held.
    pub fn may_change(self, console: &Console) -> Result<(), Failure> {
        may_change(console, self.held)
    }

    pub fn load(self, console: &Console) -> Result<StoreFile, Failure> {
        load(console, self.path)
    }

    // Puts a store where there is none.
    pub fn place(self, console: &Console, file: &StoreFile) -> Result<(), Failure> {
        place(console, self.path, self.held, Halves::from(file))
    }

    // Puts a store in the place of the former one, which is kept as STORE.old.
    pub fn replace(
        self,
        console: &Console,
        former: &StoreFile,
        file: &StoreFile,
    ) -> Result<(), Failure> {
        replace(
            console,
            self.path,
            self.held,
            Halves::from(former),
            Halves::from(file),
        )
    }
}

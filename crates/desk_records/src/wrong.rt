// Arguments that are not what they should be.
use desk::console::Console;
use desk::say::{Failure, complain};
use desk::shown::complain_shown;
use text::uuid::Uuid;

// The argument, and what is wrong with it. (desk's `fail` has the system's words behind what failed.)
pub fn wrong(console: &Console, arg: &[u8], words: &[u8]) -> Failure {
    complain_shown(console, arg);
    complain(console, words);
    Failure::Trouble
}

// The argument that a complaint is about; nothing where it is empty.
pub fn complain_about(console: &Console, arg: &[u8]) {
    if !arg.is_empty() {
        complain_shown(console, arg);
        complain(console, b": ");
    }
}

// The UUID that an argument is.
pub fn id_named(console: &Console, key: &[u8]) -> Result<Uuid, Failure> {
    Uuid::parse_str(key)
        .map(|spelled| spelled.id)
        .ok_or_else(|| {
            wrong(
                console,
                key,
                b": no UUID; it has 32 hexadecimal digits, or 36 characters with hyphens\n",
            )
        })
}

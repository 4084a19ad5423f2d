// Arguments of the command line that several commands take.
use crate::console::{Console, argument, argument_count};
use crate::fields::before;
use crate::files::arg_space;

// Whether an argument names a party.
pub fn is_party(arg: &[u8]) -> bool {
    matches!(before(arg, b'='), b"party")
}

// Whether argument `i` is `KEY=..`.
fn is_argument_with(console: &Console, key: &[u8], i: usize) -> bool {
    let mut space = arg_space();
    let arg = argument(console, i, &mut space);
    arg.strip_prefix(key)
        .is_some_and(|rest| rest.starts_with(b"="))
}

// The first argument from `from` on that is `KEY=..`.
pub fn argument_with(console: &Console, key: &[u8], from: usize) -> Option<usize> {
    (from..argument_count(console)).find(|i| is_argument_with(console, key, *i))
}

// Whether argument `i` is that word.
fn is_word(console: &Console, word: &[u8], i: usize) -> bool {
    let mut space = arg_space();
    argument(console, i, &mut space) == word
}

// Whether an argument from `from` on is that word.
pub fn has_word(console: &Console, word: &[u8], from: usize) -> bool {
    (from..argument_count(console)).any(|i| is_word(console, word, i))
}

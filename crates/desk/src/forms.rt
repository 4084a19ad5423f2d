// How the UUIDs of a list are spelled: consoles read only 32 digits.
use crate::console::Console;
use crate::fields::before;
use crate::say::{say, say_count};
use text::uuid::{Form, Uuid};

// How a line's UUID is spelled where that is not in 32 digits.
fn other_spelling(line: &[u8]) -> Option<&'static [u8]> {
    match Uuid::parse_str(before(line, b','))?.form {
        Form::Simple | Form::Xinput => None,
        Form::Hyphenated => Some(b"with hyphens"),
        Form::Braced => Some(b"in braces"),
        Form::Urn => Some(b"after urn:uuid:"),
    }
}

// Whether it is a UUID in another form than 32 digits.
pub fn has_other_form(line: &[u8]) -> bool {
    other_spelling(line).is_some()
}

// Says which other form it is.
pub fn say_form(console: &Console, line: &[u8]) {
    if let Some(words) = other_spelling(line) {
        say(console, b"the UUID is spelled ");
        say(console, words);
        say(console, b", not in 32 digits\n");
    }
}

// How many lines were filed, or would be, in another form.
pub fn say_other_forms(console: &Console, n: usize) {
    say_count(console, n, b" with a UUID that is not spelled in 32 digits");
}

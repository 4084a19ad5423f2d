// What a call of the library refuses, in words.
use desk::console::Console;
use desk::say::Failure;
use desk::words::{refused, refused_at, refused_code};
use line::refusal::Refusal;

// A refusal with its place, or with the code that it carries.
pub fn refused_by(console: &Console, refusal: Refusal) -> Failure {
    let number = refusal.number as usize;
    match (refusal.place, refusal.code) {
        (Some(place), _) => refused_at(console, number, place),
        (_, Some(code)) => refused_code(console, number, code.0),
        _ => refused(console, number),
    }
}

// What an answer refuses, if it does.
pub fn refused_outcome(console: &Console, outcome: Result<(), Refusal>) -> Result<(), Failure> {
    outcome.map_err(|refusal| refused_by(console, refusal))
}

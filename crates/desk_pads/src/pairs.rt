// The pairs of a line, and whether a line is read, without a pad's codes.
ghost use Rattle.std.specs.Prelude.{◌-◌, length};
ghost use Rattle.std.specs.Iterator.{at_most};

use crate::excerpt::put_reading_refused;
use crate::table::say_bound;
use desk::console::Console;
use desk::say::{ERR, Failure, OUT, put_value, say};
use line::parser::tokens::token_at;
use line::parser::{Error, State, Token, start_state};
use line::reading::{SdlMapping, parse_sdl_mapping};

// What the walker answers over a line, each answer with its place. It is over where the walker stays.
#[derive(Drop)]
pub struct Tokens<'a> {
    line: &'a [u8],
    pos: usize,
    state: State,
}

pub fn tokens_of(line: &[u8]) -> Tokens<'_> {
    Tokens {
        line,
        pos: 0,
        state: start_state(line),
    }
}

impl Iterator for Tokens<'_> {
    type Item = (usize, Result<Token, Error>);

    ghost remaining = { λ s. at_most (length s.line.now - s.pos) };

    fn next(&mut self) -> Option<(usize, Result<Token, Error>)> {
        let at = self.pos;
        let line = self.line;
        if line.len() <= at {
            return None;
        }
        let step = token_at(line, at, self.state);
        self.pos = if at < step.pos { step.pos } else { line.len() };
        self.state = step.state;
        Some((at, step.answer?))
    }
}

// Where the pairs of a line start: behind UUID and name, with their commas.
pub fn pairs_at(line: &[u8]) -> usize {
    let mut commas = line.iter().enumerate().filter(|(_, b)| **b == b',');
    commas.nth(1).map_or(line.len(), |(n, _)| n.wrapping_add(1))
}

// Reads a line; no codes are asked for.
fn reading_of(line: &[u8]) -> SdlMapping {
    parse_sdl_mapping(line, &[], &[])
}

// Whether a line is read.
pub fn is_readable(line: &[u8]) -> bool {
    reading_of(line).answer.is_ok()
}

// Whether a line is read: why not is said.
pub fn readable_status(console: &Console, line: &[u8]) -> Result<(), Failure> {
    reading_of(line)
        .answer
        .map_err(|e| put_reading_refused(console, ERR, e, line))
}

// `button 0  South (a)`; nothing for what is no pair.
fn say_pair(console: &Console, token: Token) {
    let (to, ranges) = match token {
        Token::AxisMapping { from, to, ranges } => {
            put_value(console, OUT, format_args!("axis {from}  "));
            (to, ranges)
        }
        Token::ButtonMapping { from, to, ranges } => {
            put_value(console, OUT, format_args!("button {from}  "));
            (to, ranges)
        }
        Token::HatMapping {
            hat,
            direction,
            to,
            ranges,
        } => {
            put_value(
                console,
                OUT,
                format_args!("hat {hat}, direction {direction}  "),
            );
            (to, ranges)
        }
        _ => return,
    };
    say_bound(console, to, ranges);
}

fn is_pair(answer: Result<Token, Error>) -> bool {
    matches!(
        answer,
        Ok(Token::AxisMapping { .. } | Token::ButtonMapping { .. } | Token::HatMapping { .. })
    )
}

// Prints the pairs of a line that is read, a row each, and why these.
pub fn say_pairs(console: &Console, line: &[u8]) -> Result<(), Failure> {
    readable_status(console, line)?;
    say(console, b"no lists are given (buttons=.., axes=..), ");
    if !tokens_of(line).any(|(_, answer)| is_pair(answer)) {
        say(console, b"and the line has no pairs\n");
        return Ok(());
    }
    say(console, b"so these are the pairs of the line:\n");
    for (_, answer) in tokens_of(line) {
        if let Ok(token) = answer {
            say_pair(console, token);
        }
    }
    Ok(())
}

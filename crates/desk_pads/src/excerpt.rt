// A refused line: its number and meaning, what it is about, and the line itself about the place, with a mark under it.
// UUID and name are shown, then the pair to its end; two dots stand where the line is cut.
use crate::elements::put_nearest_ident;
use crate::pairs::{pairs_at, tokens_of};
use desk::console::Console;
use desk::fields::{after, before, first, part_at, section};
use desk::say::{Failure, put};
use desk::shown::{put_plain, put_shown, put_space};
use desk::words::{put_place, put_refused};
use line::parser::{Error, ErrorKind, Token};
use line::reading::ParseSdlMappingError;

// How much is shown of a line, of UUID and name, and of a pair.
const WHOLE: usize = 100;

const HEAD: usize = 64;

const PAIR: usize = 160;

// What is shown: the first `head` bytes, then those from `from` to `to`.
#[derive(Clone, Copy)]
struct Cut {
    head: usize,
    from: usize,
    to: usize,
}

// Where the pair or field starts in which a place lies.
fn field_start(line: &[u8], place: usize) -> usize {
    if line.len() <= place {
        return place;
    }
    line[..place]
        .iter()
        .rposition(|b| *b == b',')
        .map_or(0, |n| n.wrapping_add(1))
}

fn cut_about(line: &[u8], place: usize) -> Cut {
    let start = field_start(line, place);
    let end = start.wrapping_add(part_at(line, start, b',').len());
    if end <= WHOLE {
        return Cut {
            head: 0,
            from: 0,
            to: line.len().min(WHOLE),
        };
    }
    let head = pairs_at(line).min(HEAD).min(start);
    let from = start.min(place);
    if place.saturating_sub(from) < PAIR {
        return Cut {
            head,
            from,
            to: end.min(from.wrapping_add(PAIR)),
        };
    }
    Cut {
        head,
        from: place.saturating_sub(HEAD),
        to: end.min(place.wrapping_add(HEAD)),
    }
}

// How many columns of dots stand between the head and the rest.
fn gap(cut: Cut) -> usize {
    if cut.head < cut.from { 2 } else { 0 }
}

// A key without the sign of its half.
pub fn unsigned(key: &[u8]) -> &[u8] {
    match key {
        [b'+' | b'-', rest @ ..] => rest,
        _ => key,
    }
}

// A text, with dots where it is cut.
pub fn put_start(console: &Console, fd: i32, s: &[u8]) {
    put_shown(console, fd, first(s, HEAD));
    if HEAD < s.len() {
        put(console, fd, b"..");
    }
}

// A line that is refused at a place, why, and where that is printed.
#[derive(Clone, Copy)]
struct Marked<'a> {
    console: &'a Console,
    fd: i32,
    line: &'a [u8],
    error: ParseSdlMappingError,
    place: usize,
}

impl Marked<'_> {
    // The line about the place, and a mark under it.
    fn put_excerpt(self) {
        let Marked {
            console,
            fd,
            line,
            place,
            ..
        } = self;
        let cut = cut_about(line, place);
        put(console, fd, b"  ");
        put_plain(console, fd, first(line, cut.head));
        put(console, fd, first(b"..", gap(cut)));
        put_plain(
            console,
            fd,
            section(line, cut.from, cut.to.saturating_sub(cut.from)),
        );
        if cut.to < line.len() {
            put(console, fd, b"..");
        }
        put(console, fd, b"\n  ");
        let before = cut.head.wrapping_add(gap(cut));
        let column = before.wrapping_add(place.saturating_sub(cut.from));
        put_space(console, fd, column);
        put(console, fd, b"^\n");
    }

    // `: 'lefty'`
    fn put_quoted(self, cause: &[u8]) {
        put(self.console, self.fd, b": '");
        put_start(self.console, self.fd, cause);
        put(self.console, self.fd, b"'");
    }

    // What the refusal of a pair is about: its value, or its key, with the nearest one.
    fn put_cause(self) {
        let pair = part_at(self.line, field_start(self.line, self.place), b',');
        let key = before(pair, b':');
        match self.error {
            ParseSdlMappingError::UnknownHatDirection
            | ParseSdlMappingError::ParseError(
                Error {
                    kind: ErrorKind::InvalidValue,
                    ..
                },
            ) => self.put_quoted(after(pair, b':')),
            ParseSdlMappingError::ParseError(
                Error {
                    kind: ErrorKind::UnknownAxis | ErrorKind::UnknownButton,
                    ..
                },
            ) => {
                self.put_quoted(key);
                put_nearest_ident(self.console, self.fd, unsigned(key));
            }
            _ => {}
        }
    }

    // Behind the refusal's number and meaning.
    fn put(self) {
        self.put_cause();
        put_place(self.console, self.fd, self.place);
        self.put_excerpt();
    }
}

// Whether a token is refused with 7.
fn is_bad_hat(answer: Result<Token, Error>) -> bool {
    matches!(
        answer,
        Ok(Token::HatMapping { hat: 0, direction, .. }) if !matches!(direction, 0 | 1 | 2 | 4 | 8)
    )
}

// The first pair that is refused with 7, or 0.
fn bad_hat_place(line: &[u8]) -> usize {
    tokens_of(line)
        .find(|(_, answer)| is_bad_hat(*answer))
        .map_or(0, |(place, _)| place)
}

// Where a line is refused, if that is at a place: 12 is about a list and has none. Document 01 places 7 at 0; the hub
// shows its pair.
fn place_of(e: ParseSdlMappingError, line: &[u8]) -> Option<usize> {
    match e {
        ParseSdlMappingError::UnknownHatDirection => Some(bad_hat_place(line)),
        _ => e.refusal().place,
    }
}

// A refused reading. Console, output and line are three parameters: each comes from elsewhere, and a struct of them
// would be made for this one call.
pub fn put_reading_refused(
    console: &Console,
    fd: i32,
    e: ParseSdlMappingError,
    line: &[u8],
) -> Failure {
    put_refused(console, fd, usize::from(e.refusal().number));
    match place_of(e, line) {
        Some(place) => {
            let marked = Marked {
                console,
                fd,
                line,
                error: e,
                place,
            };
            marked.put();
        }
        None => put(console, fd, b"\n"),
    }
    Failure::Refused
}

// A refusal of the first field, which stands at place 0.
pub fn put_first_refused(console: &Console, fd: i32, e: Error, line: &[u8]) -> Failure {
    put_reading_refused(console, fd, ParseSdlMappingError::ParseError(e), line)
}

// How the test programs write what the library answers. What is written is compared with the cases of data/.
#![tactic(auto)]

use line::ev::AxisOrBtn;
use line::mapping::{Entry, Mapping};
use line::parser::tokens::token_at;
use line::parser::{AxisRange, Error, Ranges, Token, start_state};
use line::refusal::Refusal;
use std::fmt;

// Whose data the text is compared with. The cases of samples have the low half of a UUID, and a code that is refused in
// hexadecimal behind `=`; the recorded answers of replay have all 32 digits, and the code in base ten behind a colon.
#[derive(Clone, Copy)]
pub enum Data {
    Cases,
    Recorded,
}

// A refusal: `!13`, `!4@38` with a place, `!15=131` or `!15:305` with a code.
#[derive(Clone, Copy)]
pub struct Refused(pub Data, pub Refusal);

impl fmt::Display for Refused {
    fn fmt<W: fmt::Write>(&self, f: &mut fmt::Formatter<W>) -> fmt::Result {
        let refusal = self.1;
        write!(f, "!{}", refusal.number)?;
        if let Some(p) = refusal.place {
            return write!(f, "@{p}");
        }
        match (refusal.code, self.0) {
            (Some(c), Data::Cases) => write!(f, "={:x}", c.0),
            (Some(c), Data::Recorded) => write!(f, ":{}", c.0),
            (None, _) => Ok(()),
        }
    }
}

// `b16` for a button, `a8` for an axis.
#[derive(Clone, Copy)]
pub struct Element(pub AxisOrBtn);

impl fmt::Display for Element {
    fn fmt<W: fmt::Write>(&self, f: &mut fmt::Formatter<W>) -> fmt::Result {
        match self.0 {
            AxisOrBtn::Axis(a) => write!(f, "a{}", a.0),
            AxisOrBtn::Btn(b) => write!(f, "b{}", b.0),
        }
    }
}

// The input and the output range, `F`, `U` or `L`, and `~` where inverted.
#[derive(Clone, Copy)]
pub struct Halves(pub Ranges);

fn letter(r: AxisRange) -> char {
    match r {
        AxisRange::LowerHalf => 'L',
        AxisRange::UpperHalf => 'U',
        AxisRange::Full => 'F',
    }
}

impl fmt::Display for Halves {
    fn fmt<W: fmt::Write>(&self, f: &mut fmt::Formatter<W>) -> fmt::Result {
        let tilde = if self.0.inverted { "~" } else { "" };
        write!(
            f,
            "{}{}{tilde}",
            letter(self.0.input),
            letter(self.0.output)
        )
    }
}

// The element that a pair is for, with its ranges: `a3UF~`, or `b16` where they are full on both sides and upright.
#[derive(Clone, Copy)]
pub struct Target(pub AxisOrBtn, pub Ranges);

impl fmt::Display for Target {
    fn fmt<W: fmt::Write>(&self, f: &mut fmt::Formatter<W>) -> fmt::Result {
        write!(f, "{}", Element(self.0))?;
        match self.1 {
            Ranges {
                input: AxisRange::Full,
                output: AxisRange::Full,
                inverted: false,
            } => Ok(()),
            ranges => write!(f, "{}", Halves(ranges)),
        }
    }
}

// A start and a length: `33+1`.
#[derive(Clone, Copy)]
pub struct Part(pub usize, pub usize);

impl fmt::Display for Part {
    fn fmt<W: fmt::Write>(&self, f: &mut fmt::Formatter<W>) -> fmt::Result {
        write!(f, "{}+{}", self.0, self.1)
    }
}

// A token: `U<digits>`, `N<start>+<len>`, `P<start>+<len>`, or `A<axis>`, `B<button>`, `H<hat>.<direction>` with
// `><element>` and its ranges.
#[derive(Clone, Copy)]
pub struct TokenText(pub Data, pub Token);

impl fmt::Display for TokenText {
    fn fmt<W: fmt::Write>(&self, f: &mut fmt::Formatter<W>) -> fmt::Result {
        match self.1 {
            Token::Uuid(id) => match self.0 {
                Data::Cases => write!(f, "U{:x}", id.low),
                Data::Recorded => write!(f, "U{:016x}{:016x}", id.high, id.low),
            },
            Token::Platform { start, len } => write!(f, "P{}", Part(start, len)),
            Token::Name { start, len } => write!(f, "N{}", Part(start, len)),
            Token::AxisMapping { from, to, ranges } => {
                write!(f, "A{from}>{}{}", Element(to), Halves(ranges))
            }
            Token::ButtonMapping { from, to, ranges } => {
                write!(f, "B{from}>{}{}", Element(to), Halves(ranges))
            }
            Token::HatMapping {
                hat,
                direction,
                to,
                ranges,
            } => write!(f, "H{hat}.{direction}>{}{}", Element(to), Halves(ranges)),
        }
    }
}

// What the walker answers at a call: a token, a refusal, or `E` at the end.
#[derive(Clone, Copy)]
pub struct Answered(pub Data, pub Option<Result<Token, Error>>);

impl fmt::Display for Answered {
    fn fmt<W: fmt::Write>(&self, f: &mut fmt::Formatter<W>) -> fmt::Result {
        match self.1 {
            Some(Ok(t)) => write!(f, "{}", TokenText(self.0, t)),
            Some(Err(e)) => write!(f, "{}", Refused(self.0, e.refusal())),
            None => write!(f, "E"),
        }
    }
}

// What the walker answers at the first calls over a line, with `/` after each answer.
#[derive(Clone, Copy)]
pub struct Walk<'a> {
    pub data: Data,
    pub line: &'a [u8],
    pub calls: usize,
}

impl fmt::Display for Walk<'_> {
    fn fmt<W: fmt::Write>(&self, f: &mut fmt::Formatter<W>) -> fmt::Result {
        let mut pos = 0;
        let mut state = start_state(self.line);
        for _ in 0..self.calls {
            let next = token_at(self.line, pos, state);
            write!(f, "{}/", Answered(self.data, next.answer))?;
            pos = next.pos;
            state = next.state;
        }
        Ok(())
    }
}

// An entry: `10220=b16`, `30002=a3UF~`.
#[derive(Clone, Copy)]
pub struct EntryText(pub Entry);

impl fmt::Display for EntryText {
    fn fmt<W: fmt::Write>(&self, f: &mut fmt::Formatter<W>) -> fmt::Result {
        let e = self.0;
        write!(f, "{:x}={}", e.code.0, Target(e.element, e.ranges))
    }
}

// `33+1;1;10220=b16,30002=a3UF~,`: the name's start and length, the hat flags, the entries.
#[derive(Clone, Copy)]
pub struct MapText<'a>(pub &'a Mapping);

impl fmt::Display for MapText<'_> {
    fn fmt<W: fmt::Write>(&self, f: &mut fmt::Formatter<W>) -> fmt::Result {
        let map = self.0;
        let name = Part(map.name_start, map.name_len);
        write!(f, "{name};{};", map.hats_mapped)?;
        for e in map.entries.iter().take(map.count) {
            write!(f, "{},", EntryText(*e))?;
        }
        Ok(())
    }
}

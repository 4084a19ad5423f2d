// The nearest of some names to one that is none of them. How far two names are apart: what is left of the longer one
// without their common start and their common end, capital letters or not.
use crate::console::Console;
use crate::say::put;

// How far apart a name and a suggestion may be.
const FAR: usize = 3;

// How many bytes the two have in common at their starts.
pub fn common_start(a: &[u8], b: &[u8]) -> usize {
    a.iter()
        .zip(b)
        .take_while(|(x, y)| x.eq_ignore_ascii_case(y))
        .count()
}

// How many bytes the two have in common at their ends, of at most `most`. One function for starts and ends would take
// the iterators and ask that they end, and would be no shorter than the two.
fn common_end(a: &[u8], b: &[u8], most: usize) -> usize {
    a.iter()
        .rev()
        .zip(b.iter().rev())
        .take(most)
        .take_while(|(x, y)| x.eq_ignore_ascii_case(y))
        .count()
}

fn apart(a: &[u8], b: &[u8]) -> usize {
    let start = common_start(a, b);
    let end = common_end(a, b, a.len().min(b.len()).saturating_sub(start));
    a.len()
        .max(b.len())
        .saturating_sub(start)
        .saturating_sub(end)
}

// What is searched for, the nearest name so far, and how far it is apart.
#[derive(Clone, Copy)]
pub struct Near<'a> {
    pub key: &'a [u8],
    pub name: &'a [u8],
    pub apart: usize,
}

impl<'a> Near<'a> {
    // No name is near so far.
    pub fn to(key: &'a [u8]) -> Near<'a> {
        Near {
            key,
            name: &[],
            apart: FAR,
        }
    }

    pub fn offer(&mut self, name: &'a [u8]) {
        let apart = apart(self.key, name);
        if apart < self.apart {
            self.name = name;
            self.apart = apart;
        }
    }

    // A name with nothing in common is no suggestion.
    pub fn put(&self, console: &Console, fd: i32) {
        if self.apart < self.key.len().min(FAR) {
            put(console, fd, b"; did you mean '");
            put(console, fd, self.name);
            put(console, fd, b"'?");
        }
    }
}

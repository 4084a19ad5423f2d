// The cases, each on the store as the one before left it. An answer is document 01's number, 0 where there is none.
use crate::spelled::{big, spelled, uuid};
use line::refusal::Refusal;
use parts::cuts::{after, before, first, past, rest, word};
use parts::numbers::{number, unhex};
use std::alloc::{AllocError, Global};
use store::calls::{Inserted, LookError, StoreError, clear, found, get, insert};
use store::parties::Party;
use store::refusal::store_outcome;
use store::removing::remove;
use text::bytes::write_bytes;
use text::decimal::parse_u16;
use text::uuid::Uuid;

// The store of a case, its two buffers, and whose call it is.
#[derive(Drop)]
pub struct Store<'a> {
    pub index: &'a mut [u8],
    pub text: &'a mut [u8],
    pub party: Party,
}

// Whether it is the expected one: `0`, `19`, `10@3` with the place, or `15@5` with the code that it carries.
pub fn is(outcome: Result<(), Refusal>, expected: &[u8]) -> bool {
    match outcome {
        Ok(()) => number(expected) == 0,
        Err(refusal) => {
            let carried = refusal.place.or(refusal.code.map(|c| c.0 as usize));
            refusal.number as usize == number(before(expected, b'@'))
                && carried == parse_u16(after(expected, b'@')).map(usize::from)
        }
    }
}

// Whether a clear or an insert answers so.
pub fn insert_answer(answer: Result<(), StoreError>, expected: &[u8]) -> bool {
    is(store_outcome(answer), expected)
}

// Whether an insert answers so and tells so many lines: `ANSWER COUNT ..`.
fn is_inserted(inserted: Inserted, args: &[u8]) -> bool {
    inserted.count == number(word(rest(args))) && insert_answer(inserted.answer, word(args))
}

// What a look-up says, as a number, and the line that it hands back.
#[derive(Clone, Copy)]
pub struct Looked<'a> {
    pub says: usize,
    pub line: &'a [u8],
}

// What a look-up or a removal says: 1 where a line is held, or was; 0 where none is; 19 or 24.
fn says_of(answer: Result<bool, LookError>) -> usize {
    match answer {
        Ok(held) => usize::from(held),
        Err(e) => e.refusal().number as usize,
    }
}

// The UUID of a look-up, `SAYS UUID LINE`, and of a removal.
pub fn key_of(args: &[u8]) -> Uuid {
    uuid(word(rest(args)))
}

// Whether a look-up says so and hands back that line: `SAYS UUID LINE`.
pub fn is_looked(alloc: Global, looked: Looked, args: &[u8]) -> Result<bool, AllocError> {
    let expected = spelled(alloc, rest(rest(args)))?;
    Ok(looked.says == number(word(args)) && looked.line == expected.as_slice())
}

impl<'a> Store<'a> {
    // `clear ANSWER`
    pub fn clear_case(self, args: &[u8]) -> bool {
        let Store { index, text, .. } = self;
        insert_answer(clear(index, text), args)
    }

    // Inserts the lines of a text.
    fn insert_lines(self, alloc: Global, lines: &[u8]) -> Result<Inserted, AllocError> {
        let Store { index, text, party } = self;
        let lines = spelled(alloc, lines)?;
        Ok(insert(index, text, party, &lines))
    }

    // `insert ANSWER COUNT TEXT`
    pub fn insert_case(self, alloc: Global, args: &[u8]) -> Result<bool, AllocError> {
        let inserted = self.insert_lines(alloc, rest(rest(args)))?;
        Ok(is_inserted(inserted, args))
    }

    // `forms ANSWER COUNT OTHERS TEXT`: an insert that tells how many lines were filed in another form than 32 digits.
    pub fn forms_case(self, alloc: Global, args: &[u8]) -> Result<bool, AllocError> {
        let others = rest(rest(args));
        let inserted = self.insert_lines(alloc, rest(others))?;
        Ok(inserted.not_simple == number(word(others)) && is_inserted(inserted, args))
    }

    // `remove SAYS UUID`: 1 a line was taken out, 0 none was held, 19 or 24.
    pub fn remove_case(self, args: &[u8]) -> bool {
        let Store { index, text, party } = self;
        says_of(remove(index, text, party, key_of(args))) == number(word(args))
    }

    // `find SAYS UUID LINE`: 1 found, 0 none, 19 or 24, and the line that is handed back, empty unless found.
    pub fn find(&'a self, key: Uuid) -> Looked<'a> {
        let says = says_of(found(self.index, self.text, self.party, key));
        let line = get(self.index, self.text, self.party, key);
        Looked { says, line }
    }
}

// `index TEXT`, `text TEXT`: the bytes of the buffer, all after them being 0.
pub fn bytes_case(alloc: Global, buffer: &[u8], args: &[u8]) -> Result<bool, AllocError> {
    let expected = spelled(alloc, args)?;
    let n = expected.len();
    Ok(first(buffer, n) == expected.as_slice() && past(buffer, n).iter().all(|b| *b == 0))
}

// `poke-index AT BYTES`, `poke-text AT BYTES`: changes bytes; not a call of the store. Bytes that do not fit are left out.
pub fn poke_case(buffer: &mut [u8], args: &[u8]) -> bool {
    let mut space = [0u8; 64];
    let n = unhex(rest(args), &mut space);
    write_bytes(buffer, big(word(args)), &space[..n]);
    true
}

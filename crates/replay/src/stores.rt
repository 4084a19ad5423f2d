// Cases of a store: a history of clear and insert, and what is then found; the hall's, as the Rust has no parties.
use parts::cuts::{rest, word};
use parts::numbers::uuid_or;
use std::alloc::{AllocError, Global};
use store::calls::{clear, found, get, insert};
use store::parties::Party;
use text::uuid::Uuid;

// The most bytes of a text that is inserted.
const TEXT_MAX: usize = 20480;

// The lengths of the store's two buffers.
const INDEX: usize = 2100;

const TEXT: usize = 16384;

// The store's two buffers: its calls take them lent and never grow them.
#[derive(Drop)]
pub struct Store {
    index: [u8; INDEX],
    text: [u8; TEXT],
}

impl Store {
    pub fn new() -> Store {
        Store {
            index: [0u8; INDEX],
            text: [0u8; TEXT],
        }
    }

    pub fn clear_case(&mut self) -> bool {
        clear(&mut self.index, &mut self.text).is_ok()
    }

    // `insert TEXT`: `|` stands for LF.
    pub fn insert_case(&mut self, alloc: Global, args: &[u8]) -> Result<bool, AllocError> {
        if TEXT_MAX < args.len() {
            return Ok(false);
        }
        let mut lines = Vec::new(alloc);
        for b in args {
            lines.push(if *b == b'|' { b'\n' } else { *b })?;
        }
        let inserted = insert(&mut self.index, &mut self.text, Party::Hall, &lines);
        Ok(inserted.answer.is_ok())
    }

    // `get UUID LINE`
    pub fn get_case(&self, args: &[u8]) -> bool {
        let id = id_in(args);
        matches!(found(&self.index, &self.text, Party::Hall, id), Ok(true))
            && get(&self.index, &self.text, Party::Hall, id) == rest(args)
    }

    // `none UUID`
    pub fn none_case(&self, args: &[u8]) -> bool {
        matches!(
            found(&self.index, &self.text, Party::Hall, id_in(args)),
            Ok(false)
        )
    }
}

fn id_in(args: &[u8]) -> Uuid {
    uuid_or(word(args), Uuid::NIL)
}

// Who calls a store, and what a line is held under (document 02, P9).
use text::uuid::Uuid;

// The hall, or a league organiser by an owner byte from 1 to 255. An organiser's call with 0 is turned away.
#[derive(Clone, Copy, PartialEq, Eq)]
pub enum Party {
    Hall,
    Organiser(u8),
}

// A line is held under its owner, 0 being the hall, and its UUID.
#[derive(Clone, Copy, PartialEq, Eq)]
pub struct Key {
    pub owner: u8,
    pub uuid: Uuid,
}

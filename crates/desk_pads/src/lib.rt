// Pads in words: elements, lines and maps, slots, and what the events of recorded pads give.
#![tactic(auto)]

pub mod bound;
pub mod devices;
pub mod elements;
pub mod excerpt;
pub mod holders;
pub mod layout;
pub mod pairs;
pub mod playing;
pub mod plugged;
pub mod reports;
pub mod slots;
pub mod table;
pub mod telling;
pub mod tidying;

// What a hall's store holds, in words: its parties, records and shares, and the commands that look in. Needs no pad, so it is
// proved beside desk_pads.
#![tactic(auto)]

pub mod holding;
mod names;
pub mod parties;
pub mod records;
pub mod refusals;
pub mod shares;
pub mod targets;
pub mod wrong;

// The map layer: the slots of a mapping, the line that is built from them, and the default map.
#![tactic(auto)]

pub mod default;
pub mod error;
pub mod from_data;
pub mod keys;
mod lists;
pub mod mapping_data;

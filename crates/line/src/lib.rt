// The line layer: elements, the map from codes to elements, the key tables, the walker over a line, and its reading.
#![tactic(auto)]

pub mod ev;
pub mod mapping;
pub mod parser;
pub mod reading;
pub mod refusal;
pub mod tables;

// The pad layer, beside the map layer: what a pad's raw events are worth to elements, and a pad while a game runs.
#![tactic(auto)]

mod choice;
pub mod events;
mod lines;
mod numbers;
mod put;
pub mod state;
mod telling;
pub mod two;
pub mod value;
mod values;

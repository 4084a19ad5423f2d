// The desk of support staff: what is printed and typed, help, refusals in words, codes, files and recordings. Needs no line.
#![tactic(auto)]

pub mod advice;
pub mod arguments;
pub mod changing;
pub mod codes;
pub mod console;
pub mod fields;
pub mod files;
pub mod forms;
pub mod help;
pub mod input_events;
pub mod manual;
pub mod manual_pads;
pub mod matching;
pub mod near;
pub mod say;
pub mod shown;
pub mod streams;
pub mod suggest;
pub mod tally;
pub mod words;

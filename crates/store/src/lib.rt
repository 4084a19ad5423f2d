// The store: two lent buffers, index and text, that encode a list of lines (document 01, 'Records' and 'Store').
#![tactic(auto)]

mod batch;
mod border;
mod bytes;
pub mod calls;
mod chains;
mod claims;
mod filing;
mod lines;
mod look;
pub mod near;
mod order;
mod owners;
pub mod parties;
mod records;
pub mod refusal;
pub mod removing;
mod rows;
mod saving;
mod settle;
mod shares;
pub mod sharing;
mod soundness;
mod spellings;
mod table;
mod tree;
pub mod walk;

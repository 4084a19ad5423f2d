// What the test programs read their cases by: words and other parts of a line, numbers, bytes in hexadecimal; and how
// many cases went wrong.
#![tactic(auto)]

pub mod cuts;
pub mod numbers;
pub mod totals;

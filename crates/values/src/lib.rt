// What is said of values alone: the limits, the numbers of answers, what a word says.
// Inner functions for the crates above; no call of the library is here.
#![tactic(auto)]

pub mod answers;
pub mod limits;
pub mod words;

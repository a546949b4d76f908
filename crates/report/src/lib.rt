// The text of a report, put into a lent buffer piece by piece. Inner code: no calls of the library.
#![tactic(auto)]

pub mod benches;
pub mod lines;
pub mod pieces;

// What each effect stores. Inner functions for the crates above; no call of the library is here.
#![tactic(auto)]

pub mod carry;
pub mod sends;
pub mod stand;

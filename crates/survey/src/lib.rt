// What the conductor finds out about a rack before it makes its steps: who is running, whether the rack is one that it takes,
// and which tag it relays to whom. Inner functions for the crates above; no call of the library is here.
#![tactic(auto)]

pub mod level;
pub mod running;
pub mod tags;

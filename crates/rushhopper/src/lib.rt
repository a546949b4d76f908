// The library for callers in C and Rust: every public call, with document 01's numbers as answers. include/rushhopper.h
// declares them. No two of what a call is lent may overlap. C has no Option, no Result and no lifetimes: refusals are numbers here, a
// run that was opened is 1 beside its numbers, and each call puts the three tables together.
#![tactic(auto)]

pub mod archives;
pub mod crashes;
pub mod layouts;
pub mod sequences;
pub mod singles;

ghost use Rattle.std.specs.Prelude.{◌≡◌};
ghost use Rattle.model.specs.Answers.{number_in};

use model::Refusal;

// 0 for an accepted call, or the number of its refusal.
fn number_of<T>(answer: &Result<T, Refusal>) -> usize
    ensures { result ≡ number_in answer.now }
{
    match answer {
        Ok(_) => 0,
        Err(why) => usize::from(*why),
    }
}

// The limits of document 01, "Rack numbers".
ghost use Rattle.std.specs.Prelude.{◌≡◌};
ghost use Rattle.model.specs.Limits.{limited, planned, plan_limited};

use model::{
    COIN_ENTRIES, DEFAULT_PHASES, MOST_PHASES, MOST_REPLICAS, MOST_SLOTS, MOST_TAGS, Numbers, Plan,
};

// As many faults as replicas are refused before 2f + 1 is computed, so that it does not wrap.
#[tactic(auto, using(std::proofs::lemmas::Bool::Decides::nat_tests), unfolding(model::specs::Limits::limited))]
pub fn numbers_limited(numbers: Numbers) -> bool
    ensures { result ≡ limited numbers }
{
    (1..=MOST_REPLICAS).contains(&numbers.n)
        && numbers.f < numbers.n
        && 2 * numbers.f + 1 <= numbers.n
        && (1..=MOST_SLOTS).contains(&numbers.slots)
        && (1..=MOST_PHASES).contains(&numbers.phases)
        && (1..=MOST_TAGS).contains(&numbers.room)
}

pub fn plan_numbers(plan: Plan) -> Numbers
    ensures { result ≡ planned plan }
{
    let asked = plan.numbers;
    if asked.phases == 0 {
        return Numbers {
            phases: DEFAULT_PHASES,
            ..asked
        };
    }
    asked
}

pub fn plan_limited(plan: Plan) -> bool
    ensures { result ≡ plan_limited plan }
{
    numbers_limited(plan_numbers(plan)) && plan.start < COIN_ENTRIES
}

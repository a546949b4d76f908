// Run on: advances, up to one that closes a slot or is refused. The call of the library is `run_on`; it has no `requires`.
#![tactic(auto)]

mod rounds;

ghost use Rattle.std.specs.Prelude.{◌≡◌, ◌<◌, ◌≤◌, eqb, length};
ghost use Rattle.model.specs.declared.Answer.TheVariants.{Ran};
ghost use Rattle.model.specs.declared.Round.TheVariants.{State};
ghost use Rattle.model.specs.Answers.{answer_in};
ghost use Rattle.model.specs.Rack.{round_number};
ghost use Rattle.model.specs.Scripts.{ended};
ghost use Rattle.tables.specs.Layout.{mask_bits, record_at, record_end};
ghost use Rattle.tables.specs.Calls.{ran_on};
ghost use Rattle.tables.specs.Lent.{held, Same};

use cells::records::load;
use model::{Numbers, Refusal, ReplicaId, Round};
use refusals::admit;
use rounds::{goes_on, run_state, run_vote, stopped};
use steps::advances::advance_once;
use tables::Memory;

// Whether the record says so: the further advances start with its rule.
fn in_state_round(who: usize, memory: &Memory) -> bool
    requires { (who < mask_bits) × (record_end who ≤ length (held memory.now).words) }
    ensures { result ≡ eqb (record_at (held memory.now).words who).round (round_number State) }
{
    let k = load(memory.words, who);
    k.round == u16::from(Round::State)
}

// "If the first advance is refused, so is the step. The answer is the count of accepted advances." The further ones start with
// the round that the first led to.
pub fn run_on(
    numbers: Numbers,
    who: ReplicaId,
    memory: &mut Memory,
    strip: &[u8],
) -> Result<usize, Refusal>
    ensures same { Same memory.old memory.new }
    ensures outcome { ended (answer_in Ran result) (held memory.new) ≡ ran_on numbers strip.now who (held memory.old) }
{
    admit(numbers, who.0, who.0, memory, strip.len())?;
    let first = advance_once(numbers, who, true, memory, strip);
    if !goes_on(first) {
        return stopped(0, first);
    }
    if in_state_round(who.0, memory) {
        let left = numbers.phases + 2;
        return run_state(numbers, who, left, 1, memory, strip);
    }
    let left = numbers.phases + 3;
    run_vote(numbers, who, left, 1, memory, strip)
}

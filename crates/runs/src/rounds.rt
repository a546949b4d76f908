// The rounds of a run on: "the state round hands over to the vote round, and the vote round back with a later phase". Two
// functions that call each other, the form that document 01 names, and no loop. `left` phases may follow; `count` advances were accepted so
// far, so that no first refusal is met. Inner code: no calls of the library.
ghost use Rattle.std.specs.Prelude.{◌≡◌, ◌+◌, ◌*◌, ◌<◌, ◌≤◌, length, Ok};
ghost use Rattle.model.specs.declared.Answer.TheVariants.{Ran};
ghost use Rattle.model.specs.Answers.{answer_in};
ghost use Rattle.model.specs.Scripts.{play, goes_on, stopped as stopped_at, running, ended};
ghost use Rattle.tables.specs.Calls.{on_tables};
ghost use Rattle.tables.specs.Lent.{held, Same};
ghost use Rattle.refusals.specs.Vet.{first_vetted};
ghost use Rattle.runs.specs.Most.{most_steps};

use model::{Effect, Numbers, Refusal, ReplicaId};
use steps::advances::advance_once;
use tables::Memory;

// An advance after which a run on goes on: accepted, and it closed no slot.
pub fn goes_on(effect: Effect) -> bool
    ensures { result ≡ goes_on effect }
{
    !matches!(effect, Effect::Refuse(_) | Effect::Close { .. })
}

// The answer of a run on that stops with this advance, behind `count` that were accepted.
pub fn stopped(count: usize, effect: Effect) -> Result<usize, Refusal>
    requires { count < usize.MAX }
    ensures { answer_in Ran result ≡ stopped_at count effect }
{
    match effect {
        Effect::Refuse(why) if count == 0 => Err(why),
        Effect::Refuse(_) => Ok(count),
        _ => Ok(count + 1),
    }
}

// In the state round.
#[cycle(run_state_run_vote)]
pub fn run_state(
    numbers: Numbers,
    who: ReplicaId,
    left: usize,
    count: usize,
    memory: &mut Memory,
    strip: &[u8],
) -> Result<usize, Refusal>
    requires { (count + 2 * left + 1 ≤ most_steps)
        × (Ok tt ≡ first_vetted numbers who.0 who.0 (length strip.now) (held memory.old)) }
    ensures same { Same memory.old memory.new }
    ensures outcome { ended (answer_in Ran result) (held memory.new)
        ≡ play (on_tables numbers strip.now) (running who (2 * left + 1) count) (held memory.old) }
{
    let effect = advance_once(numbers, who, true, memory, strip);
    if goes_on(effect) {
        return run_vote(numbers, who, left, count + 1, memory, strip);
    }
    stopped(count, effect)
}

// In the vote round, and in the exchange, which goes on to a state as well.
#[cycle(run_state_run_vote)]
pub fn run_vote(
    numbers: Numbers,
    who: ReplicaId,
    left: usize,
    count: usize,
    memory: &mut Memory,
    strip: &[u8],
) -> Result<usize, Refusal>
    requires { (count + 2 * left ≤ most_steps)
        × (Ok tt ≡ first_vetted numbers who.0 who.0 (length strip.now) (held memory.old)) }
    ensures same { Same memory.old memory.new }
    ensures outcome { ended (answer_in Ran result) (held memory.new)
        ≡ play (on_tables numbers strip.now) (running who (2 * left) count) (held memory.old) }
{
    if left == 0 {
        return Ok(count);
    }
    let effect = advance_once(numbers, who, true, memory, strip);
    if goes_on(effect) {
        return run_state(numbers, who, left - 1, count + 1, memory, strip);
    }
    stopped(count, effect)
}

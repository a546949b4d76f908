// Advance, a crash on the memories, and any step as a value: `take_step`. The calls of the library have no `requires`.
#![tactic(auto)]

pub mod advances;
pub mod crashes;

ghost use Rattle.std.specs.Prelude.{◌≡◌};
ghost use Rattle.model.specs.declared.Answer.TheVariants.{Done};
ghost use Rattle.model.specs.Answers.{answer_in};
ghost use Rattle.model.specs.Scripts.{ended};
ghost use Rattle.tables.specs.Calls.{stepped};
ghost use Rattle.tables.specs.Lent.{held, Same};

use acts::{begin, hear, relay, submit};
use advances::advance;
use crashes::crash;
use model::{Act, Numbers, Refusal, Step};
use tables::Memory;

// Submit, relay, begin, hear, advance or crash; a crash is lent the record of the words.
pub fn take_step(
    step: Step,
    numbers: Numbers,
    memory: &mut Memory,
    strip: &[u8],
) -> Result<(), Refusal>
    ensures same { Same memory.old memory.new }
    ensures outcome { ended (answer_in (λ _. Done) result) (held memory.new) ≡ stepped numbers strip.now step (held memory.old) }
{
    let who = step.who;
    match step.act {
        Act::Submit(tag) => submit(numbers, who, tag, memory, strip),
        Act::Relay(tag) => relay(numbers, who, tag, memory, strip),
        Act::Begin => begin(numbers, who, memory, strip),
        Act::Hear(message) => hear(numbers, who, message, memory, strip),
        Act::Advance => advance(numbers, who, memory, strip),
        Act::Crash => crash(numbers, who, memory.words),
    }
}

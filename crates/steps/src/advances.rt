// Advance: judged by a heard notice, else by the rule of the replica's round, and carried out. A run on is built of the same.
ghost use Rattle.std.specs.Prelude.{◌≡◌, true, length, Ok};
ghost use Rattle.model.specs.declared.Answer.TheVariants.{Done};
ghost use Rattle.model.specs.Answers.{answer_in};
ghost use Rattle.model.specs.Scripts.{advance as advancing, ended};
ghost use Rattle.tables.specs.Calls.{judge, performed, stepped};
ghost use Rattle.tables.specs.Lent.{held, Same};
ghost use Rattle.refusals.specs.Vet.{first_vetted};

use advance::notices::heed;
use cells::records::load;
use effects::carry::carry_advance;
use model::{Effect, Numbers, Refusal, ReplicaId, Round};
use refusals::admit;
use tables::Memory;

// The first refusals; they are not asked again where it is known that none is met.
fn vet_once(
    numbers: Numbers,
    who: ReplicaId,
    admitted: bool,
    memory: &Memory,
    strip: &[u8],
) -> Result<(), Refusal>
    requires { admitted ≡ true → Ok tt ≡ first_vetted numbers who.0 who.0 (length strip.now) (held memory.now) }
    ensures { result ≡ first_vetted numbers who.0 who.0 (length strip.now) (held memory.now) }
{
    if admitted {
        return Ok(());
    }
    admit(numbers, who.0, who.0, memory, strip.len())
}

fn judge_advance(
    numbers: Numbers,
    who: ReplicaId,
    admitted: bool,
    memory: &Memory,
    strip: &[u8],
) -> Effect
    requires { admitted ≡ true → Ok tt ≡ first_vetted numbers who.0 who.0 (length strip.now) (held memory.now) }
    ensures { result ≡ judge numbers strip.now (advancing who) (held memory.now) }
{
    if let Err(why) = vet_once(numbers, who, admitted, memory, strip) {
        return Effect::Refuse(why);
    }
    let k = load(memory.words, who.0);
    heed(
        numbers,
        who.0,
        Round::from(k.round),
        k.slot as usize,
        k.phase as usize,
        memory.to_read(),
        strip,
    )
}

// Where `admitted`, no first refusal is met: a run on asks them once.
pub fn advance_once(
    numbers: Numbers,
    who: ReplicaId,
    admitted: bool,
    memory: &mut Memory,
    strip: &[u8],
) -> Effect
    requires { admitted ≡ true → Ok tt ≡ first_vetted numbers who.0 who.0 (length strip.now) (held memory.old) }
    ensures same { Same memory.old memory.new }
    ensures judged { result ≡ judge numbers strip.now (advancing who) (held memory.old) }
    ensures left { held memory.new ≡ performed numbers strip.now (advancing who) (held memory.old) }
{
    let effect = judge_advance(numbers, who, admitted, memory, strip);
    carry_advance(numbers, who.0, effect, memory);
    effect
}

// By a heard notice, else by the rule of the replica's round. The call of the library; it has no `requires`.
pub fn advance(
    numbers: Numbers,
    who: ReplicaId,
    memory: &mut Memory,
    strip: &[u8],
) -> Result<(), Refusal>
    ensures same { Same memory.old memory.new }
    ensures outcome { ended (answer_in (λ _. Done) result) (held memory.new) ≡ stepped numbers strip.now (advancing who) (held memory.old) }
{
    match advance_once(numbers, who, false, memory, strip) {
        Effect::Refuse(why) => Err(why),
        _ => Ok(()),
    }
}

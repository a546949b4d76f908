// A crash on the memories: it is lent the record of the words. The call of the library is `crash`; it has no `requires`.
ghost use Rattle.std.specs.Prelude.{◌≡◌, ◌&&◌, List, ℕ, leb, ltb, length};
ghost use Rattle.model.specs.declared.Act.TheVariants.{Crash};
ghost use Rattle.model.specs.declared.Answer.TheVariants.{Done};
ghost use Rattle.model.specs.declared.Effect.TheVariants.{Refuse, Halt};
ghost use Rattle.model.specs.Answers.{answer_in};
ghost use Rattle.model.specs.TurnedAway.{effect_in};
ghost use Rattle.model.specs.Scripts.{ended};
ghost use Rattle.tables.specs.Layout.{mask_bits, record_end};
ghost use Rattle.tables.specs.Calls.{tables, stepped};
ghost use Rattle.steps.specs.Crashing.{crash_judged, crash_missing};

use cells::records::load;
use crash::crash_core;
use effects::stand::halt;
use layout::record_past;
use model::{Numbers, Refusal, ReplicaId};
use tables::MASK_BITS;
use values::limits::numbers_limited;

// Whether the words have the record of `who`.
fn record_there(who: usize, words: &[u16]) -> bool
    ensures { result ≡ (ltb who mask_bits && leb (record_end who) (length words.now)) }
{
    who < MASK_BITS && record_past(who) <= words.len()
}

// Where its record is not there: 3 of the numbers, then 2, or 4 of a number beyond the run.
fn missing(numbers: Numbers, who: usize) -> Refusal
    ensures { Refuse result ≡ crash_missing numbers who }
{
    if !numbers_limited(numbers) {
        Refusal::SpoiledRecord
    } else if who < numbers.n {
        Refusal::ShortTable
    } else {
        Refusal::NoSuchReplica
    }
}

// A crash is lent the record of the words, and is judged as the crash of one record.
fn judge_crash(numbers: Numbers, who: usize, words: &[u16]) -> Result<(), Refusal>
    ensures { effect_in (λ _. Halt) result ≡ crash_judged numbers who words.now }
{
    if !record_there(who, words) {
        return Err(missing(numbers, who));
    }
    crash_core(numbers, ReplicaId(who), load(words, who))?;
    Ok(())
}

// "The controller is dark for good." Whatever stands in the orders, the ballots and the strip.
pub fn crash(numbers: Numbers, who: ReplicaId, words: &mut [u16]) -> Result<(), Refusal>
    ensures { (os bs strip : List ℕ) → ended (answer_in (λ _. Done) result) (tables words.new os bs)
        ≡ stepped numbers strip (record { who = who; act = Crash }) (tables words.old os bs) }
{
    judge_crash(numbers, who.0, words)?;
    halt(who.0, words);
    Ok(())
}

// What an advance comes to, round by round. Inner code: no calls of the library.
#![tactic(auto, using(crate::proofs::RuleLaws::finds), unfolding(model::specs::Rules::phase_in, model::specs::TurnedAway::unless))]

pub mod notices;

ghost use Rattle.std.specs.Prelude.{◌≡◌, true, false, [], ◌∷◌, ◌<◌, ◌≤◌, ◌*◌, suc, leb, ltb, length, Some, None};
ghost use Rattle.model.specs.declared.Sort.TheVariants.{States, Votes};
ghost use Rattle.model.specs.declared.Word.TheVariants.{Say, Unsure};
ghost use Rattle.model.specs.declared.Refusal.TheVariants.{PhasesUsedUp};
ghost use Rattle.model.specs.declared.Effect.TheVariants.{Send};
ghost use Rattle.model.specs.Coins.{coin, strip_cell};
ghost use Rattle.model.specs.TurnedAway.{◌when◌, ◌⊢◌, settle};
ghost use Rattle.model.specs.Rules.{quorum, majority, exchange_rule, state_rule, conclude, vote_rule, find_rule, advance_rule};
ghost use Rattle.tables.specs.Bounds.{Bounds};
ghost use Rattle.tables.specs.Checks.{misplaced};
ghost use Rattle.tables.specs.Lent.{read};
ghost use Rattle.messages.specs.Reach.{Reach};
ghost use Rattle.tallies.specs.Heard.{InSlot, InPhase, heard_by};
ghost use Rattle.advance.specs.Picked.{picked};

use coin::coin_of;
use model::{Effect, Numbers, PhaseIndex, Refusal, Round, SlotIndex, Sort, Word};
use tables::MemoryRef;
use tallies::{Count, count_heard, majority_tag};

// 14: "below quota"
fn below_quorum(numbers: Numbers, heard: usize) -> bool
    requires { Bounds numbers }
    ensures { result ≡ ltb heard (quorum numbers) }
{
    heard < numbers.n - numbers.f
}

// The value that was heard so often, if one was: "0 is looked for first".
fn value_of(bound: usize, count: Count) -> Option<bool>
    ensures { result ≡ picked bound count.zeros count.ones (Some false) (Some true) None }
{
    if bound <= count.zeros {
        Some(false)
    } else if bound <= count.ones {
        Some(true)
    } else {
        None
    }
}

fn exchange_rule(
    numbers: Numbers,
    who: usize,
    slot: usize,
    phase: usize,
    memory: MemoryRef,
) -> Effect
    requires { InSlot numbers who slot (read memory) }
    ensures { let k = heard_by numbers who slot phase (read memory.entry) in
        result ≡ settle (exchange_rule numbers k) }
{
    let count = count_heard(numbers, who, Sort::Proposals, slot, 0, memory);
    if below_quorum(numbers, count.all) {
        return Effect::Refuse(Refusal::TooFewHeard);
    }
    Effect::Send {
        sort: Sort::States,
        phase: 1,
        word: Word::Say(majority_tag(numbers, who, slot, memory) != 0),
    }
}

fn vote_of(numbers: Numbers, count: Count) -> Word
    ensures { result ≡ picked (majority numbers) count.zeros count.ones (Say false) (Say true) Unsure }
{
    match value_of(numbers.n / 2 + 1, count) {
        Some(v) => Word::Say(v),
        None => Word::Unsure,
    }
}

fn state_rule(numbers: Numbers, who: usize, slot: usize, phase: usize, memory: MemoryRef) -> Effect
    requires { InPhase numbers who States slot phase (read memory) }
    ensures { let k = heard_by numbers who slot phase (read memory.entry) in
        result ≡ settle (state_rule numbers k) }
{
    let count = count_heard(numbers, who, Sort::States, slot, phase, memory);
    if below_quorum(numbers, count.all) {
        return Effect::Refuse(Refusal::TooFewHeard);
    }
    Effect::Send {
        sort: Sort::Votes,
        phase,
        word: vote_of(numbers, count),
    }
}

// Outcome 1. The coin has no part in it.
#[tactic(auto, using(crate::proofs::RuleLaws::finds), unfolding(model::specs::Rules::phase_in, model::specs::Rules::conclude))]
fn close_or_seek(
    numbers: Numbers,
    who: usize,
    slot: usize,
    phase: usize,
    memory: MemoryRef,
) -> Effect
    requires { InSlot numbers who slot (read memory) }
    ensures { let k = heard_by numbers who slot phase (read memory.entry) in
        result ≡ conclude numbers false k (Some true) }
{
    match majority_tag(numbers, who, slot, memory) {
        0 => Effect::Seek,
        entry => Effect::Close { entry, own: true },
    }
}

// No outcome: 15, or the state for the next phase. The coin is looked up only where neither a 0 nor a 1 was heard.
fn go_on(numbers: Numbers, slot: usize, phase: usize, count: Count, strip: &[u8]) -> Effect
    requires { (Bounds numbers) × (1 ≤ phase) × (strip_cell numbers.phases slot phase < length strip.now) }
    ensures { let state = picked 1 count.zeros count.ones false true (coin numbers.phases strip.now slot phase) in
        result ≡ settle (PhasesUsedUp when leb numbers.phases phase ∷ [] ⊢ Send States (suc phase) (Say state)) }
{
    if numbers.phases <= phase {
        return Effect::Refuse(Refusal::PhasesUsedUp);
    }
    let state = value_of(1, count).unwrap_or_else(|| coin_of(
        numbers.phases,
        strip,
        SlotIndex(slot),
        PhaseIndex(phase),
    ));
    Effect::Send {
        sort: Sort::States,
        phase: phase + 1,
        word: Word::Say(state),
    }
}

fn vote_rule(
    numbers: Numbers,
    who: usize,
    slot: usize,
    phase: usize,
    memory: MemoryRef,
    strip: &[u8],
) -> Effect
    requires { (InPhase numbers who Votes slot phase (read memory))
        × (1 ≤ phase) × (strip_cell numbers.phases slot phase < length strip.now) }
    ensures { let k = heard_by numbers who slot phase (read memory.entry) in
        result ≡ settle (vote_rule numbers (coin numbers.phases strip.now slot phase) k) }
{
    let count = count_heard(numbers, who, Sort::Votes, slot, phase, memory);
    if below_quorum(numbers, count.all) {
        return Effect::Refuse(Refusal::TooFewHeard);
    }
    match value_of(numbers.f + 1, count) {
        Some(true) => close_or_seek(numbers, who, slot, phase, memory),
        Some(false) => Effect::Close {
            entry: 0,
            own: true,
        },
        None => go_on(numbers, slot, phase, count, strip),
    }
}

fn find_rule(numbers: Numbers, who: usize, slot: usize, phase: usize, memory: MemoryRef) -> Effect
    requires { InSlot numbers who slot (read memory) }
    ensures { let k = heard_by numbers who slot phase (read memory.entry) in
        result ≡ settle (find_rule numbers k) }
{
    match majority_tag(numbers, who, slot, memory) {
        0 => Effect::Refuse(Refusal::TooFewHeard),
        entry => Effect::Close { entry, own: true },
    }
}

#[tactic(auto, using(model::proofs::Branches::picks), unfolding(model::specs::Rules::advance_rule, model::specs::TurnedAway::unless))]
fn advance_rule(
    numbers: Numbers,
    who: usize,
    round: Round,
    slot: usize,
    phase: usize,
    memory: MemoryRef,
    strip: &[u8],
) -> Effect
    requires { (who < numbers.n) × (misplaced numbers round slot phase ≡ false) × (Reach numbers (read memory))
        × (numbers.slots * numbers.phases ≤ length strip.now) }
    ensures { let k = heard_by numbers who slot phase (read memory.entry) in
        result ≡ settle (advance_rule numbers (coin numbers.phases strip.now slot phase) k round) }
{
    match round {
        Round::Idle => Effect::Refuse(Refusal::NotBegun),
        Round::Exchange => exchange_rule(numbers, who, slot, phase, memory),
        Round::State => state_rule(numbers, who, slot, phase, memory),
        Round::Vote => vote_rule(numbers, who, slot, phase, memory, strip),
        Round::Find => find_rule(numbers, who, slot, phase, memory),
    }
}

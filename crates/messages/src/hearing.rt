// Hear: refusals 16, 17, 18.
ghost use Rattle.std.specs.Prelude.{◌≡◌, not, ◌||◌, ◌<◌, ◌≤◌, leb, IfOk};
ghost use Rattle.std.proofs.Math.Option.{some};
ghost use Rattle.model.specs.declared.Effect.TheVariants.{Receive};
ghost use Rattle.model.specs.Rack.{sort_of};
ghost use Rattle.model.specs.TurnedAway.{settle, effect_in};
ghost use Rattle.model.specs.Rules.{phase_in, hear_rule};
ghost use Rattle.tables.specs.Addresses.{Addressed};
ghost use Rattle.tables.specs.View.{guarded, sent_words, inbox_in};
ghost use Rattle.tables.specs.Lent.{read};
ghost use Rattle.messages.specs.Reach.{Reach, reading};

use crate::words::{counts_for, sent_word};
use model::{Message, Numbers, Refusal, Sort};
use tables::{Address, MemoryRef};
use values::words::is_sent;

#[tactic(auto, using(model::proofs::Branches::picks), unfolding(model::specs::Rules::phase_in))]
fn phase_in(numbers: Numbers, sort: Sort, phase: usize) -> bool
    ensures { result ≡ phase_in numbers sort phase }
{
    match sort {
        Sort::States | Sort::Votes => (1..=numbers.phases).contains(&phase),
        _ => phase == 0,
    }
}

// 16: "sort, slot or phase out of range". The limit is the rule's: which slots have a row is another question.
fn out_of_range(numbers: Numbers, sort: Sort, slot: usize, phase: usize) -> bool
    ensures { result ≡ (leb numbers.slots slot || not (phase_in numbers sort phase)) }
{
    numbers.slots <= slot || !phase_in(numbers, sort, phase)
}

// By the number of the sort: 1 a proposal, 2 a state, 3 a vote, 4 a notice.
pub fn sort_named(x: usize) -> Sort
    requires { (1 ≤ x) × (x ≤ 4) }
    ensures { some result ≡ sort_of x }
{
    match x {
        1 => Sort::Proposals,
        2 => Sort::States,
        3 => Sort::Votes,
        _ => Sort::Notices,
    }
}

// Where the message stands that is heard.
pub fn hear_rule(
    numbers: Numbers,
    who: usize,
    message: Message,
    memory: MemoryRef,
) -> Result<Address, Refusal>
    requires { (who < numbers.n) × (message.sender.0 < numbers.n) × (Reach numbers (read memory)) }
    ensures there { IfOk result (λ at. Addressed numbers at) }
    ensures settled { let t = read memory.entry in
        let sent = guarded numbers (sent_words numbers t.words t.orders t.ballots) in
        effect_in (λ at. Receive at.sort at.slot at.phase at.sender (sent at.sort at.slot at.phase at.sender)) result
        ≡ settle (hear_rule numbers sent
        (reading 0 0 (guarded numbers (inbox_in numbers t.words t.orders t.ballots who)))
        message (sort_of message.sort)) }
{
    let at = Address {
        sort: Sort::try_from(message.sort)?,
        slot: message.slot.0,
        phase: message.phase.0,
        sender: message.sender.0,
    };
    if out_of_range(numbers, at.sort, at.slot, at.phase) {
        return Err(Refusal::NoSuchMessage);
    }
    if !is_sent(sent_word(numbers, at, memory)) {
        return Err(Refusal::NotSent);
    }
    if counts_for(numbers, who, at, memory.words) {
        return Err(Refusal::AlreadyHeard);
    }
    Ok(at)
}

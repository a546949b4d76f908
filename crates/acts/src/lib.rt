// Submit, relay, begin and hear: each is judged, and what it comes to is stored. No `requires`: these are calls of the library.
#![tactic(auto)]

ghost use Rattle.std.specs.Prelude.{◌≡◌};
ghost use Rattle.model.specs.declared.Act.TheVariants.{Submit, Relay, Begin, Hear};
ghost use Rattle.model.specs.declared.Answer.TheVariants.{Done};
ghost use Rattle.model.specs.declared.Sort.TheVariants.{Proposals};
ghost use Rattle.model.specs.declared.Word.TheVariants.{Tag};
ghost use Rattle.model.specs.declared.Effect.TheVariants.{Hold, Send, Receive};
ghost use Rattle.model.specs.Answers.{answer_in};
ghost use Rattle.model.specs.TurnedAway.{effect_in};
ghost use Rattle.model.specs.Scripts.{ended};
ghost use Rattle.tables.specs.Layout.{record_at};
ghost use Rattle.tables.specs.View.{guarded, sent_words};
ghost use Rattle.tables.specs.Addresses.{Within};
ghost use Rattle.tables.specs.Write.{write};
ghost use Rattle.tables.specs.Calls.{judge, stepped};
ghost use Rattle.tables.specs.Lent.{held, Same};
ghost use Rattle.messages.specs.Reach.{Reach, Fitting};

use cells::records::load;
use effects::sends::send;
use known::hold_tag;
use messages::hearing::hear_rule;
use messages::sending::mark_heard;
use model::{Message, Numbers, Refusal, ReplicaId, Round, Sort, Word};
use orders::rule::{begin_rule, relay_rule, submit_rule};
use refusals::admit;
use tables::{Address, Memory};

fn judge_submit(
    numbers: Numbers,
    who: ReplicaId,
    tag: u64,
    memory: &Memory,
    strip: &[u8],
) -> Result<(), Refusal>
    ensures { effect_in (λ _. Hold tag) result ≡ judge numbers strip.now (record { who = who; act = Submit tag }) (held memory.now) }
{
    admit(numbers, who.0, who.0, memory, strip.len())?;
    submit_rule(numbers, who.0, tag, memory.words, memory.orders)
}

// "The tag becomes known, if it wasn't, and this controller holds it."
pub fn submit(
    numbers: Numbers,
    who: ReplicaId,
    tag: u64,
    memory: &mut Memory,
    strip: &[u8],
) -> Result<(), Refusal>
    ensures same { Same memory.old memory.new }
    ensures outcome { ended (answer_in (λ _. Done) result) (held memory.new)
        ≡ stepped numbers strip.now (record { who = who; act = Submit tag }) (held memory.old) }
{
    judge_submit(numbers, who, tag, memory, strip)?;
    hold_tag(numbers, who.0, tag, memory.words, memory.orders);
    Ok(())
}

// As a submit is judged, by another rule. A rule that is handed in would bring a contract longer than these two lines.
fn judge_relay(
    numbers: Numbers,
    who: ReplicaId,
    tag: u64,
    memory: &Memory,
    strip: &[u8],
) -> Result<(), Refusal>
    ensures { effect_in (λ _. Hold tag) result ≡ judge numbers strip.now (record { who = who; act = Relay tag }) (held memory.now) }
{
    admit(numbers, who.0, who.0, memory, strip.len())?;
    relay_rule(numbers, who.0, tag, memory.words, memory.orders)
}

// "A known tag is held by one more controller."
pub fn relay(
    numbers: Numbers,
    who: ReplicaId,
    tag: u64,
    memory: &mut Memory,
    strip: &[u8],
) -> Result<(), Refusal>
    ensures same { Same memory.old memory.new }
    ensures outcome { ended (answer_in (λ _. Done) result) (held memory.new)
        ≡ stepped numbers strip.now (record { who = who; act = Relay tag }) (held memory.old) }
{
    judge_relay(numbers, who, tag, memory, strip)?;
    hold_tag(numbers, who.0, tag, memory.words, memory.orders);
    Ok(())
}

// The tag that is proposed.
fn judge_begin(
    numbers: Numbers,
    who: ReplicaId,
    memory: &Memory,
    strip: &[u8],
) -> Result<u64, Refusal>
    ensures { effect_in (λ x. Send Proposals 0 (Tag x)) result
        ≡ judge numbers strip.now (record { who = who; act = Begin }) (held memory.now) }
{
    admit(numbers, who.0, who.0, memory, strip.len())?;
    let k = load(memory.words, who.0);
    begin_rule(
        numbers,
        who.0,
        Round::from(k.round),
        k.slot as usize,
        memory.words,
        memory.orders,
    )
}

// The tag is sent as a proposal. Apart from `begin`, so that the numbers are laid out in memory only where they are handed on.
fn propose(numbers: Numbers, who: usize, tag: u64, memory: &mut Memory)
    requires { (Within numbers Proposals (record_at (held memory.old).words who).slot 0 who) × (Fitting Proposals (Tag tag))
        × (Reach numbers (held memory.old)) }
    ensures same { Same memory.old memory.new }
    ensures left { held memory.new ≡ write numbers who (Send Proposals 0 (Tag tag)) (held memory.old) }
{
    send(numbers, who, Sort::Proposals, 0, Word::Tag(tag), memory);
}

// "An idle controller proposes" its first-ranked pending tag "and enters the exchange."
pub fn begin(
    numbers: Numbers,
    who: ReplicaId,
    memory: &mut Memory,
    strip: &[u8],
) -> Result<(), Refusal>
    ensures same { Same memory.old memory.new }
    ensures outcome { ended (answer_in (λ _. Done) result) (held memory.new)
        ≡ stepped numbers strip.now (record { who = who; act = Begin }) (held memory.old) }
{
    let tag = judge_begin(numbers, who, memory, strip)?;
    propose(numbers, who.0, tag, memory);
    Ok(())
}

// Where the message stands that is heard.
fn judge_hear(
    numbers: Numbers,
    who: ReplicaId,
    message: Message,
    memory: &Memory,
    strip: &[u8],
) -> Result<Address, Refusal>
    ensures { let t = held memory.now in
        let sent = guarded numbers (sent_words numbers t.words t.orders t.ballots) in
        effect_in (λ at. Receive at.sort at.slot at.phase at.sender (sent at.sort at.slot at.phase at.sender)) result
        ≡ judge numbers strip.now (record { who = who; act = Hear message }) t }
{
    admit(numbers, who.0, message.sender.0, memory, strip.len())?;
    hear_rule(numbers, who.0, message, memory.to_read())
}

// "The acting controller of a hear is the receiver."
pub fn hear(
    numbers: Numbers,
    who: ReplicaId,
    message: Message,
    memory: &mut Memory,
    strip: &[u8],
) -> Result<(), Refusal>
    ensures same { Same memory.old memory.new }
    ensures outcome { ended (answer_in (λ _. Done) result) (held memory.new)
        ≡ stepped numbers strip.now (record { who = who; act = Hear message }) (held memory.old) }
{
    let at = judge_hear(numbers, who, message, memory, strip)?;
    mark_heard(numbers, who.0, at, memory.words);
    Ok(())
}

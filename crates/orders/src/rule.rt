// Submit, relay and begin: refusals 6 to 12.
ghost use Rattle.std.specs.Prelude.{◌≡◌, ◌≤◌, true, false, eqb, take, MatchResult};
ghost use Rattle.model.specs.declared.Round.TheVariants.{Idle};
ghost use Rattle.model.specs.declared.Sort.TheVariants.{Proposals};
ghost use Rattle.model.specs.declared.Word.TheVariants.{Tag};
ghost use Rattle.model.specs.declared.Effect.TheVariants.{Hold, Send};
ghost use Rattle.model.specs.declared.Refusal.TheVariants.{BlankTag};
ghost use Rattle.model.specs.TurnedAway.{settle, effect_in};
ghost use Rattle.model.specs.Rules.{submit_rule, relay_rule, begin_rule};
ghost use Rattle.tables.specs.Layout.{known_in};
ghost use Rattle.known.specs.Room.{Acting, as_holder};

use crate::pending::next_tag;
use cells::records::known_in;
use known::{held_from, tag_place};
use layout::holders_base;
use model::{Numbers, Refusal, Round};

// "Tag 0 is no order".
fn vet_tag(x: u64) -> Result<(), Refusal>
    ensures { MatchResult result (λ _. eqb x 0 ≡ false) (λ why. (why ≡ BlankTag) × (eqb x 0 ≡ true)) }
{
    if x == 0 {
        return Err(Refusal::BlankTag);
    }
    Ok(())
}

pub fn submit_rule(
    numbers: Numbers,
    who: usize,
    x: u64,
    words: &[u16],
    orders: &[u64],
) -> Result<(), Refusal>
    requires { Acting numbers who words.now orders.now }
    ensures { let known = take (known_in words.now) orders.now in
        let k = as_holder numbers who Idle 0 words.now orders.now in
        effect_in (λ _. Hold x) result ≡ settle (submit_rule numbers.room known k x) }
{
    vet_tag(x)?;
    let known = known_in(words) as usize;
    let first = tag_place(x, known, orders);
    if held_from(who, x, first, known, holders_base(numbers), words, orders) {
        return Err(Refusal::AlreadyHeld);
    }
    if known <= first && numbers.room <= known {
        return Err(Refusal::TagRoomFull);
    }
    Ok(())
}

pub fn relay_rule(
    numbers: Numbers,
    who: usize,
    x: u64,
    words: &[u16],
    orders: &[u64],
) -> Result<(), Refusal>
    requires { Acting numbers who words.now orders.now }
    ensures { let known = take (known_in words.now) orders.now in
        let k = as_holder numbers who Idle 0 words.now orders.now in
        effect_in (λ _. Hold x) result ≡ settle (relay_rule known k x) }
{
    vet_tag(x)?;
    let known = known_in(words) as usize;
    let first = tag_place(x, known, orders);
    if known <= first {
        return Err(Refusal::UnknownTag);
    }
    if held_from(who, x, first, known, holders_base(numbers), words, orders) {
        return Err(Refusal::AlreadyHeld);
    }
    Ok(())
}

// The tag that is proposed.
pub fn begin_rule(
    numbers: Numbers,
    who: usize,
    round: Round,
    closed: usize,
    words: &[u16],
    orders: &[u64],
) -> Result<u64, Refusal>
    requires { (closed ≤ numbers.slots) × (Acting numbers who words.now orders.now) }
    ensures { let known = take (known_in words.now) orders.now in
        let k = as_holder numbers who round closed words.now orders.now in
        effect_in (λ x. Send Proposals 0 (Tag x)) result ≡ settle (begin_rule numbers.slots known k) }
{
    if round != Round::Idle {
        return Err(Refusal::Busy);
    }
    if numbers.slots <= closed {
        return Err(Refusal::LogFull);
    }
    let first = next_tag(numbers, who, closed, words, orders);
    if first == 0 {
        return Err(Refusal::NothingPending);
    }
    Ok(first)
}

// The conductor: it takes a level rack and makes all steps of one slot. The call of the library is `conduct`; it has no `requires`.
#![tactic(auto)]

ghost use Rattle.std.specs.Prelude.{◌≡◌, IfOk};
ghost use Rattle.model.specs.declared.Answer.TheVariants.{Refused, Done, Conducted as ConductedSo};
ghost use Rattle.model.specs.Answers.{answer_in};
ghost use Rattle.model.specs.TurnedAway.{unless};
ghost use Rattle.model.specs.Conductor.{conduct_refusals};
ghost use Rattle.model.specs.Scripts.{ended};
ghost use Rattle.tables.specs.View.{view};
ghost use Rattle.tables.specs.Sound.{Sound};
ghost use Rattle.tables.specs.Calls.{tables_barred, conducted};
ghost use Rattle.tables.specs.Lent.{held, Same};
ghost use Rattle.conduct.specs.Seen.{Seen};

use model::{Act, Numbers, Refusal};
use refusals::{measure, run_spoiled, tables_long};
use rounds::{each_does, make_slot};
use survey::level::is_level;
use survey::running::find_running;
use survey::tags::{common_tag, find_lacking};
use tables::Memory;

// How many steps were accepted besides relays, and how many relays.
#[derive(Clone, Copy, Default)]
pub struct Conducted {
    pub steps: usize,
    pub relays: usize,
}

// What is found of a level rack, by masks: who is running, who of them lacks the tag, their slot and the tag.
#[derive(Clone, Copy)]
struct Found {
    running: u16,
    lacking: u16,
    slot: usize,
    tag: u64,
}

// 3 and 2, as every step asks them. No later step of the call meets them.
fn bar(numbers: Numbers, memory: &Memory, strip: &[u8]) -> Result<(), Refusal>
    ensures { result ≡ unless Err (tables_barred numbers strip.now (held memory.now)) (Ok tt) }
{
    if run_spoiled(numbers, memory.words) {
        return Err(Refusal::SpoiledRecord);
    }
    if !tables_long(numbers, measure(memory.to_read()))
        || strip.len() < numbers.slots * numbers.phases
    {
        return Err(Refusal::ShortTable);
    }
    Ok(())
}

// "23 "too few lit" below the quota, 22 "not level" if the starting condition fails, 11, 12, in this order."
fn find_level(numbers: Numbers, memory: &Memory) -> Result<Found, Refusal>
    requires { Sound numbers (held memory.now) }
    ensures settled { answer_in (λ _. Done) result ≡ unless Refused (conduct_refusals numbers (view numbers (held memory.now))) Done }
    ensures seen { IfOk result (Seen numbers (view numbers (held memory.now))) }
{
    let running = find_running(numbers, memory.words);
    if running.count < numbers.n - numbers.f {
        return Err(Refusal::TooFewRunning);
    }
    if !is_level(numbers, running.slot, memory.to_read()) {
        return Err(Refusal::NotLevel);
    }
    if numbers.slots <= running.slot {
        return Err(Refusal::LogFull);
    }
    let tag = common_tag(numbers, running.mask, memory.words, memory.orders);
    if tag == 0 {
        return Err(Refusal::NothingPending);
    }
    let lacking = find_lacking(numbers, running.mask, tag, memory.words, memory.orders);
    Ok(Found {
        running: running.mask,
        lacking,
        slot: running.slot,
        tag,
    })
}

// "It answers both counts": of the steps besides the relays, and of the relays.
pub fn conduct(numbers: Numbers, memory: &mut Memory, strip: &[u8]) -> Result<Conducted, Refusal>
    ensures same { Same memory.old memory.new }
    ensures outcome { ended (answer_in (λ c. ConductedSo c.steps c.relays) result) (held memory.new)
        ≡ conducted numbers strip.now (held memory.old) }
{
    bar(numbers, memory, strip)?;
    let found = find_level(numbers, memory)?;
    let relays = each_does(numbers, found.lacking, Act::Relay(found.tag), memory, strip);
    let steps = make_slot(numbers, found.running, found.slot, memory, strip);
    Ok(Conducted { steps, relays })
}

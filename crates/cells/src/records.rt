// The head of the words: the count of known tags; and a replica's record. Which records are spoiled.
ghost use Rattle.std.specs.Prelude.{◌≡◌, not, ◌<◌, ◌≤◌, length};
ghost use Rattle.model.specs.Tests.{between};
ghost use Rattle.model.specs.Limits.{most_replicas};
ghost use Rattle.tables.specs.Layout.{mask_bits, known_in, record_end, record_at, record_stored};
ghost use Rattle.tables.specs.Checks.{astray as astray_by, overcounted as overcounted_by, spoiled, spoiled_at, any_spoiled};

use layout::{record_past, record_place, slot_end};
use model::{Numbers, Round};
use tables::{KNOWN_CELL, Record};

// How many tags are known: none where not even that is there.
#[tactic(auto, unfolding(tables::specs::Layout::known_in))]
pub fn known_in(words: &[u16]) -> u16
    ensures { result ≡ known_in words.now }
{
    words.get(KNOWN_CELL).copied().unwrap_or(0)
}

#[tactic(auto, unfolding(tables::specs::Layout::record_at))]
pub fn load(words: &[u16], c: usize) -> Record
    requires { (c < mask_bits) × (record_end c ≤ length words.now) }
    ensures { result ≡ record_at words.now c }
{
    let at = record_place(c);
    Record {
        crashed: words[at],
        round: words[at + 1],
        slot: words[at + 2],
        phase: words[at + 3],
        empty: words[at + 4],
        fast: words[at + 5],
    }
}

#[tactic(auto, unfolding(tables::specs::Layout::record_stored))]
pub fn store(words: &mut [u16], c: usize, k: Record)
    requires { (c < mask_bits) × (record_end c ≤ length words.old) }
    ensures { words.new ≡ record_stored words.old c k }
{
    let at = record_place(c);
    words[at] = k.crashed;
    words[at + 1] = k.round;
    words[at + 2] = k.slot;
    words[at + 3] = k.phase;
    words[at + 4] = k.empty;
    words[at + 5] = k.fast;
}

// "a phase outside 1 to the phase limit"
fn phase_outside(numbers: Numbers, phase: usize) -> bool
    ensures { result ≡ not (between 1 numbers.phases phase) }
{
    !(1..=numbers.phases).contains(&phase)
}

// A number above the last round's is none. The slot is asked for before the round: most records are of a slot that the run has.
#[tactic(auto, unfolding(tables::specs::Checks::astray, tables::specs::Checks::misplaced, model::specs::Rules::phase_in))]
fn astray(numbers: Numbers, k: Record) -> bool
    ensures { result ≡ astray_by numbers k }
{
    let slot = usize::from(k.slot);
    let end = slot_end(numbers);
    if k.round > u16::from(Round::Find) {
        return true;
    }
    let round = Round::from(k.round);
    if end <= slot {
        return round != Round::Idle || end < slot;
    }
    matches!(round, Round::State | Round::Vote) && phase_outside(numbers, usize::from(k.phase))
}

// "either count exceeds the closed slots"
#[tactic(auto, using(std::proofs::lemmas::Bool::Decides::nat_tests), unfolding(tables::specs::Checks::overcounted))]
fn overcounted(k: Record) -> bool
    ensures { result ≡ overcounted_by k }
{
    k.slot < k.empty || k.slot < k.fast
}

// The counts first: asked behind the rounds they would stand at two places, and the compiler would no longer join this with steps.
#[tactic(auto, unfolding(tables::specs::Checks::spoiled))]
pub fn record_spoiled(numbers: Numbers, k: Record) -> bool
    ensures { result ≡ spoiled numbers k }
{
    overcounted(k) || astray(numbers, k)
}

fn spoiled_record(numbers: Numbers, words: &[u16], c: usize) -> bool
    requires { c < mask_bits }
    ensures { result ≡ spoiled_at numbers words.now c }
{
    record_past(c) <= words.len() && record_spoiled(numbers, load(words, c))
}

// Whether one of the n records that are there is spoiled.
pub fn any_spoiled(numbers: Numbers, words: &[u16]) -> bool
    requires { numbers.n ≤ most_replicas }
    ensures { result ≡ any_spoiled numbers words.now }
{
    (0..numbers.n).any(|c| spoiled_record(numbers, words, c))
}

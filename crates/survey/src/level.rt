// "a rack whose L lit controllers are all idle at the same slot, where nobody, dark or lit, has sent a message of that slot"
ghost use Rattle.std.specs.Prelude.{◌≡◌, ◌||◌, ◌<◌, ◌≤◌, length};
ghost use Rattle.model.specs.declared.Sort.TheVariants.{States, Votes};
ghost use Rattle.model.specs.Tests.{any};
ghost use Rattle.model.specs.Rack.{is_sent};
ghost use Rattle.model.specs.Conductor.{spoke, level};
ghost use Rattle.tables.specs.Layout.{record_at, words_need};
ghost use Rattle.tables.specs.Bounds.{Bounds};
ghost use Rattle.tables.specs.View.{view};
ghost use Rattle.tables.specs.Addresses.{Addressed};
ghost use Rattle.tables.specs.Lent.{read};
ghost use Rattle.messages.specs.Reach.{Reach};
ghost use Rattle.survey.specs.Standing.{uneven_record, balloted};

use cells::records::load;
use layout::has_row;
use messages::words::sent_word;
use model::{Numbers, Round, Sort};
use tables::{Address, MemoryRef, Record};
use values::words::is_sent;

// Whether it is running, and in a round or at another slot.
fn is_uneven(slot: usize, k: Record) -> bool
    ensures { result ≡ uneven_record slot k }
{
    k.crashed == 0 && (k.round != u16::from(Round::Idle) || k.slot as usize != slot)
}

fn any_uneven(numbers: Numbers, slot: usize, words: &[u16]) -> bool
    requires { (Bounds numbers) × (words_need numbers ≤ length words.now) }
    ensures { result ≡ any numbers.n (λ c. uneven_record slot (record_at words.now c)) }
{
    (0..numbers.n).any(|c| is_uneven(slot, load(words, c)))
}

fn has_sent(numbers: Numbers, at: Address, memory: MemoryRef) -> bool
    requires { (Addressed numbers at) × (Reach numbers (read memory)) }
    ensures { result ≡ is_sent ((view numbers (read memory.entry)).sent at.sort at.slot at.phase at.sender) }
{
    is_sent(sent_word(numbers, at, memory))
}

// A state or a vote of one phase.
fn balloted_in(
    numbers: Numbers,
    slot: usize,
    phase: usize,
    sender: usize,
    memory: MemoryRef,
) -> bool
    requires { (slot < numbers.slots) × (1 ≤ phase) × (phase ≤ numbers.phases) × (sender < numbers.n) × (Reach numbers (read memory)) }
    ensures { let k = view numbers (read memory.entry) in
        result ≡ (is_sent (k.sent States slot phase sender) || is_sent (k.sent Votes slot phase sender)) }
{
    let state = Address {
        sort: Sort::States,
        slot,
        phase,
        sender,
    };
    let vote = Address {
        sort: Sort::Votes,
        ..state
    };
    has_sent(numbers, state, memory) || has_sent(numbers, vote, memory)
}

// A state or a vote of any phase.
fn has_balloted(numbers: Numbers, slot: usize, sender: usize, memory: MemoryRef) -> bool
    requires { (slot < numbers.slots) × (sender < numbers.n) × (Reach numbers (read memory)) }
    ensures { let k = view numbers (read memory.entry) in
        result ≡ any numbers.phases (balloted k.sent slot sender) }
{
    (0..numbers.phases).any(|p| balloted_in(numbers, slot, p + 1, sender, memory))
}

// Any message of the slot.
fn has_spoken(numbers: Numbers, slot: usize, sender: usize, memory: MemoryRef) -> bool
    requires { (slot < numbers.slots) × (sender < numbers.n) × (Reach numbers (read memory)) }
    ensures { let k = view numbers (read memory.entry) in
        result ≡ spoke numbers k slot sender }
{
    let proposal = Address {
        sort: Sort::Proposals,
        slot,
        phase: 0,
        sender,
    };
    let notice = Address {
        sort: Sort::Notices,
        ..proposal
    };
    has_sent(numbers, proposal, memory)
        || has_sent(numbers, notice, memory)
        || has_balloted(numbers, slot, sender, memory)
}

// "dark or lit": every sender is asked, whatever its record says.
fn anyone_spoke(numbers: Numbers, slot: usize, memory: MemoryRef) -> bool
    requires { (slot < numbers.slots) × (Reach numbers (read memory)) }
    ensures { let k = view numbers (read memory.entry) in
        result ≡ any numbers.n (spoke numbers k slot) }
{
    (0..numbers.n).any(|sender| has_spoken(numbers, slot, sender, memory))
}

// The records first: they are few, and tell of most racks that are not level. Nothing is sent of a slot that has no row.
pub fn is_level(numbers: Numbers, slot: usize, memory: MemoryRef) -> bool
    requires { Reach numbers (read memory) }
    ensures { result ≡ level numbers (view numbers (read memory.entry)) slot }
{
    !any_uneven(numbers, slot, memory.words)
        && !(has_row(numbers, slot) && anyone_spoke(numbers, slot, memory))
}

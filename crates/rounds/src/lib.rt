// The steps of the conductor, each in number order, by masks of the replicas that make them: what a step leaves never changes who
// makes the next. Inner code: no calls of the library.
#![tactic(auto)]

ghost use Rattle.std.specs.Prelude.{get_or, ℕ, ◌≤◌, ◌<◌, ◌*◌, ◌&&◌, not, false, List, ◌≡◌};
ghost use Rattle.model.specs.Limits.{most_replicas};
ghost use Rattle.model.specs.Rack.{sort_number, is_sent};
ghost use Rattle.model.specs.Rules.{strip_short};
ghost use Rattle.model.specs.Conductor.{for_each, does, hear_steps, round_steps, slot_steps};
ghost use Rattle.tables.specs.Layout.{mask_bits, has_bit, heard_cell};
ghost use Rattle.tables.specs.View.{counts_for, sent_words};
ghost use Rattle.tables.specs.Addresses.{Addressed};
ghost use Rattle.tables.specs.Lent.{held, Same};
ghost use Rattle.messages.specs.Reach.{Reach};
ghost use Rattle.rounds.specs.Made.{Made, Listening, Ready, InRange, Passable, most_round};

use cells::masks::has_bit;
use messages::sending::mark_heard;
use messages::words::{counts_for, sent_word};
use model::{Act, Numbers, ReplicaId, Sort, Step};
use steps::take_step;
use tables::{Address, Memory};
use values::words::is_sent;

// Each replica of the mask does this: how many were accepted.
// A loop, as in `hear_others` and `all_hear`: a closure that changes the memory it captures needs clauses of its own, which is no plainer.
pub fn each_does(numbers: Numbers, mask: u16, act: Act, memory: &mut Memory, strip: &[u8]) -> usize
    requires { numbers.n ≤ most_replicas }
    ensures same { Same memory.old memory.new }
    ensures made { (result ≤ numbers.n)
        × Made numbers strip.now (for_each numbers.n (has_bit mask) (does act)) (held memory.old) (held memory.new) result }
{
    let mut count = 0;
    for c in 0..numbers.n {
        if has_bit(mask, c) {
            let who = ReplicaId(c);
            count += usize::from(take_step(Step { who, act }, numbers, memory, strip).is_ok());
        }
    }
    count
}

// Whether a message of the run is sent, and not heard yet: of the refusals of a hear, 17 and 18 alone can be met here.
fn is_unheard(numbers: Numbers, who: usize, at: Address, memory: &Memory) -> bool
    requires { (who < mask_bits) × (Addressed numbers at) × (Reach numbers (held memory.now)) }
    ensures { let t = held memory.now in
        result ≡ (is_sent (sent_words numbers t.words t.orders t.ballots at.sort at.slot at.phase at.sender)
        && not (counts_for who at.sender (get_or t.words (heard_cell numbers at.sort at.slot at.phase at.sender) 0))) }
{
    is_sent(sent_word(numbers, at, memory.to_read())) && !counts_for(numbers, who, at, memory.words)
}

// One replica hears each other running one, and not itself. By the leaves of the hear, so that its own caller stays the only one.
// `first`: where the messages of a round begin.
fn hear_others(
    numbers: Numbers,
    running: u16,
    who: usize,
    first: Address,
    memory: &mut Memory,
) -> usize
    requires { (Listening numbers who (held memory.old)) × (InRange numbers first.sort first.slot first.phase) }
    ensures same { Same memory.old memory.new }
    ensures made { (result ≤ numbers.n) × ((strip : List ℕ) → strip_short numbers strip ≡ false
        → Made numbers strip (hear_steps numbers.n (has_bit running) first.slot (sort_number first.sort) first.phase who)
        (held memory.old) (held memory.new) result) }
{
    let mut count = 0;
    for sender in 0..numbers.n {
        let at = Address { sender, ..first };
        if has_bit(running, sender) && sender != who && is_unheard(numbers, who, at, memory) {
            mark_heard(numbers, who, at, memory.words);
            count += 1;
        }
    }
    count
}

// "each lit one hears each other"
fn all_hear(numbers: Numbers, running: u16, first: Address, memory: &mut Memory) -> usize
    requires { (Ready numbers running (held memory.old)) × (InRange numbers first.sort first.slot first.phase) }
    ensures same { Same memory.old memory.new }
    ensures made { (result ≤ most_replicas * numbers.n) × ((strip : List ℕ) → strip_short numbers strip ≡ false
        → Made numbers strip
        (for_each numbers.n (has_bit running) (hear_steps numbers.n (has_bit running) first.slot (sort_number first.sort) first.phase))
        (held memory.old) (held memory.new) result) }
{
    let mut count = 0;
    for c in 0..numbers.n {
        if has_bit(running, c) {
            count += hear_others(numbers, running, c, first, memory);
        }
    }
    count
}

// "each lit one hears each other, then each advances"
fn make_round(
    numbers: Numbers,
    running: u16,
    first: Address,
    memory: &mut Memory,
    strip: &[u8],
) -> usize
    requires { (Ready numbers running (held memory.old)) × (strip_short numbers strip.now ≡ false)
        × (InRange numbers first.sort first.slot first.phase) }
    ensures same { Same memory.old memory.new }
    ensures made { (result ≤ most_round)
        × Made numbers strip.now (round_steps numbers.n (has_bit running) first.slot (sort_number first.sort) first.phase)
        (held memory.old) (held memory.new) result }
{
    let heard = all_hear(numbers, running, first, memory);
    heard + each_does(numbers, running, Act::Advance, memory, strip)
}

// "then begins all; in the exchange and in phase 1's state and vote rounds", "and no further"
pub fn make_slot(
    numbers: Numbers,
    running: u16,
    slot: usize,
    memory: &mut Memory,
    strip: &[u8],
) -> usize
    requires { Passable numbers running slot strip.now (held memory.old) }
    ensures same { Same memory.old memory.new }
    ensures made { Made numbers strip.now (slot_steps numbers.n (has_bit running) slot) (held memory.old) (held memory.new) result }
{
    let exchange = Address {
        sort: Sort::Proposals,
        slot,
        phase: 0,
        sender: 0,
    };
    let state = Address {
        sort: Sort::States,
        phase: 1,
        ..exchange
    };
    let vote = Address {
        sort: Sort::Votes,
        ..state
    };
    let begun = each_does(numbers, running, Act::Begin, memory, strip);
    let exchanged = make_round(numbers, running, exchange, memory, strip);
    let stated = make_round(numbers, running, state, memory, strip);
    begun + exchanged + stated + make_round(numbers, running, vote, memory, strip)
}

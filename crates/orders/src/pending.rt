// The tag that a replica proposes next: of those that it holds and has not in its log, the first in the order of proposing.
ghost use Rattle.std.specs.Prelude.{◌≡◌, true, false, ◌&&◌, ◌||◌, not, ◌+◌, ◌-◌, ◌^◌, ◌<◌, ◌≤◌, eqb, length, take, MatchOption};
ghost use Rattle.model.specs.declared.Round.TheVariants.{Idle};
ghost use Rattle.model.specs.Tests.{if};
ghost use Rattle.model.specs.Rules.{urgent, ahead, earlier, next_tag};
ghost use Rattle.tables.specs.Layout.{mask_bits, has_bit, known_in};
ghost use Rattle.known.specs.Room.{Acting, as_holder};
ghost use Rattle.orders.specs.Waiting.{logged_in};

use cells::masks::has_bit;
use cells::records::known_in;
use known::first_place;
use layout::{holders_base, log_place};
use model::{Numbers, URGENT};

// A tag with its highest bit turned over: so the urgent ones, which have it set, are the smaller numbers.
fn turned(x: u64) -> u64
    ensures { result ≡ if (urgent x) (x - 2 ^ 63) (x + 2 ^ 63) }
{
    if x >= URGENT { x - URGENT } else { x + URGENT }
}

// The order in which pending tags are proposed. The compiler makes one comparison of it, a signed one.
pub fn is_ahead(x: u64, y: u64) -> bool
    ensures { result ≡ ahead x y }
{
    turned(x) < turned(y)
}

// Whether a tag is proposed before the first one so far; 0 is none.
pub fn leads(x: u64, first: u64) -> bool
    ensures { result ≡ (eqb first 0 || ahead x first) }
{
    first == 0 || is_ahead(x, first)
}

// A place of the tag in a replica's log, which is looked through from one of its places on and then from its start.
fn entry_place(x: u64, from: usize, log: &[u64]) -> Option<usize>
    requires { from ≤ length log.now }
    ensures { MatchOption result (logged_in log.now x ≡ false) (λ s. (s < length log.now) × (logged_in log.now x ≡ true)) }
{
    let later = first_place(x, from, log.len(), log);
    if later < log.len() {
        return Some(later);
    }
    let earlier = first_place(x, 0, from, log);
    if earlier < from {
        return Some(earlier);
    }
    None
}

// What is found so far: the first of the pending tags, 0 if there is none, and the place in the log behind the entry that was
// met last. Tags are often logged in the order in which they were submitted, and then the next one stands there.
#[derive(Clone, Copy)]
struct Search {
    first: u64,
    behind: usize,
}

// One more place of the known tags, with its tag and holders. Its own bit is enough: a tag that is held only at another place that
// has it is found there. The log is looked through last.
fn search_on(who: usize, x: u64, mask: u16, found: Search, log: &[u64]) -> Search
    requires { (who < mask_bits) × (found.behind ≤ length log.now) }
    ensures { let waits = has_bit mask who && not (logged_in log.now x) in
        (result.first ≡ if (waits && not (eqb x 0)) (earlier x found.first) found.first) × (result.behind ≤ length log.now) }
{
    if x == 0 || !leads(x, found.first) || !has_bit(mask, who) {
        return found;
    }
    match entry_place(x, found.behind, log) {
        Some(place) => Search {
            behind: place + 1,
            ..found
        },
        None => Search { first: x, ..found },
    }
}

// 0 if no tag is pending.
pub fn next_tag(numbers: Numbers, who: usize, closed: usize, words: &[u16], orders: &[u64]) -> u64
    requires { (closed ≤ numbers.slots) × (Acting numbers who words.now orders.now) }
    ensures { let known = take (known_in words.now) orders.now in
        result ≡ next_tag known (as_holder numbers who Idle closed words.now orders.now) }
{
    let known = known_in(words) as usize;
    let holders = holders_base(numbers);
    let start = log_place(numbers, who, 0);
    let log = &orders[start..start + closed];
    let mut found = Search {
        first: 0,
        behind: 0,
    };
    for (tag, mask) in orders[..known].iter().zip(&words[holders..holders + known]) {
        found = search_on(who, *tag, *mask, found, log);
    }
    found.first
}

// The known tags and their holders. Inner functions for the crates above; no call of the library is here. Here and in the crate orders
// a function takes the two tables that it reads, and not the whole memory: so its contract holds whatever stands in the ballots.
#![tactic(auto)]

ghost use Rattle.std.specs.Prelude.{◌≡◌, ◌+◌, ◌<◌, ◌≤◌, length, take};
ghost use Rattle.tables.specs.Layout.{mask_bits, known_in};
ghost use Rattle.tables.specs.View.{held_from};
ghost use Rattle.tables.specs.Write.{place_in, orders_held, words_held};
ghost use Rattle.known.specs.Room.{Room, Storable, FirstPlace};

use cells::masks::{has_bit, own_bit, with_bit};
use cells::records::known_in;
use layout::holders_base;
use model::Numbers;
use tables::KNOWN_CELL;

// The first cell that has x, of those from a place on up to another, or that other.
#[inline(always)]
fn next_place(x: u64, from: usize, to: usize, cells: &[u64]) -> usize
    requires { (from ≤ to) × (to ≤ length cells.now) }
    ensures { FirstPlace cells.now x from to result }
{
    cells[from..to]
        .iter()
        .position(|cell| *cell == x)
        .map_or(to, |i| from + i)
}

// The same, four cells in a turn: submit, relay and begin spend most of their time here.
pub fn first_place(x: u64, from: usize, to: usize, cells: &[u64]) -> usize
    requires { (from ≤ to) × (to ≤ length cells.now) }
    ensures { FirstPlace cells.now x from to result }
{
    let turns = (to - from) / 4;
    for turn in 0..turns {
        let i = from + 4 * turn;
        let place = next_place(x, i, i + 4, cells);
        if place < i + 4 {
            return place;
        }
    }
    next_place(x, from + 4 * turns, to, cells)
}

// The first place of a tag among the known ones, or their count.
pub fn tag_place(x: u64, known: usize, tags: &[u64]) -> usize
    requires { known ≤ length tags.now }
    ensures { result ≡ place_in x (take known tags.now) }
{
    first_place(x, 0, known, tags)
}

// Whether `who` holds the tag at its first place or a later one that has it: a damaged table may have a tag twice.
// The holders' masks stand from a base on.
pub fn held_from(
    who: usize,
    x: u64,
    first: usize,
    known: usize,
    base: usize,
    words: &[u16],
    orders: &[u64],
) -> bool
    requires { (who < mask_bits) × (base + known ≤ length words.now) × (known ≤ length orders.now)
        × (first ≡ place_in x (take known orders.now)) }
    ensures { result ≡ held_from base known orders.now words.now who x }
{
    (first..known).any(|i| orders[i] == x && has_bit(words[base + i], who))
}

// `who` holds the tag from now on.
pub fn hold_tag(numbers: Numbers, who: usize, x: u64, words: &mut [u16], orders: &mut [u64])
    requires { (who < mask_bits) × (Room numbers words.old orders.old) × (Storable numbers x (known_in words.old) orders.old) }
    ensures { (words.new ≡ words_held numbers who x orders.old words.old)
        × (orders.new ≡ orders_held x (known_in words.old) orders.old) }
{
    let count = known_in(words);
    let known = count as usize;
    let base = holders_base(numbers);
    let at = tag_place(x, known, orders);
    if at < known {
        words[base + at] = with_bit(words[base + at], who);
    } else {
        orders[known] = x;
        words[base + known] = own_bit(who);
        words[KNOWN_CELL] = count + 1;
    }
}

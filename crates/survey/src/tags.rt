// "the first-ranked tag" of those "pending at any lit controller", and "the lit ones that lack it".
ghost use Rattle.std.specs.Prelude.{◌≡◌, false, List, ℕ, ◌<◌, eqb, take};
ghost use Rattle.model.specs.Tests.{if};
ghost use Rattle.model.specs.Rules.{earlier, first_of};
ghost use Rattle.model.specs.Conductor.{is_running, common_tag, lacks};
ghost use Rattle.tables.specs.Layout.{known_in};
ghost use Rattle.tables.specs.View.{view};
ghost use Rattle.tables.specs.Checks.{any_spoiled};
ghost use Rattle.tables.specs.Calls.{tables};
ghost use Rattle.known.specs.Room.{Room};
ghost use Rattle.survey.specs.Marked.{Marked};
ghost use Rattle.survey.specs.Standing.{waits};

use cells::masks::{has_bit, with_bit};
use cells::records::{known_in, load};
use known::{held_from, tag_place};
use layout::holders_base;
use model::Numbers;
use orders::pending::{leads, next_tag};

// The first of two tags in the order in which they are proposed; 0 is none.
fn first_of_two(x: u64, y: u64) -> u64
    ensures { result ≡ if (eqb x 0) y (earlier x y) }
{
    if x != 0 && leads(x, y) { x } else { y }
}

// What a running replica proposes next; 0 of one that is not running.
fn own_tag(numbers: Numbers, running: u16, c: usize, words: &[u16], orders: &[u64]) -> u64
    requires { (c < numbers.n) × (Room numbers words.now orders.now) × (any_spoiled numbers words.now ≡ false) }
    ensures { let known = take (known_in words.now) orders.now in
        result ≡ first_of (waits numbers running words.now orders.now c) known }
{
    if !has_bit(running, c) {
        return 0;
    }
    next_tag(numbers, c, load(words, c).slot as usize, words, orders)
}

pub fn common_tag(numbers: Numbers, running: u16, words: &[u16], orders: &[u64]) -> u64
    requires { (Room numbers words.now orders.now) × (any_spoiled numbers words.now ≡ false)
        × ((os bs : List ℕ) → Marked numbers.n (is_running numbers (view numbers (tables words.now os bs))) running) }
    ensures { (bs : List ℕ) → result ≡ common_tag numbers (view numbers (tables words.now orders.now bs)) }
{
    let mut first = 0;
    for c in 0..numbers.n {
        first = first_of_two(own_tag(numbers, running, c, words, orders), first);
    }
    first
}

pub fn find_lacking(numbers: Numbers, running: u16, tag: u64, words: &[u16], orders: &[u64]) -> u16
    requires { (Room numbers words.now orders.now)
        × ((os bs : List ℕ) → Marked numbers.n (is_running numbers (view numbers (tables words.now os bs))) running) }
    ensures { (bs : List ℕ) → Marked numbers.n (lacks numbers (view numbers (tables words.now orders.now bs)) tag) result }
{
    let known = known_in(words) as usize;
    let base = holders_base(numbers);
    let first = tag_place(tag, known, orders);
    let mut mask = 0;
    for c in 0..numbers.n {
        if has_bit(running, c) && !held_from(c, tag, first, known, base, words, orders) {
            mask = with_bit(mask, c);
        }
    }
    mask
}

// The running replicas [lit controllers].
ghost use Rattle.std.specs.Prelude.{◌≡◌, List, ℕ, ◌<◌, ◌≤◌, length};
ghost use Rattle.model.specs.Tests.{if};
ghost use Rattle.model.specs.Conductor.{is_running, running_count, common_slot};
ghost use Rattle.tables.specs.Layout.{mask_bits, words_need};
ghost use Rattle.tables.specs.Bounds.{Bounds};
ghost use Rattle.tables.specs.View.{view};
ghost use Rattle.tables.specs.Calls.{tables};
ghost use Rattle.survey.specs.Marked.{Marked};
ghost use Rattle.survey.specs.Standing.{runs, joined};

use cells::masks::with_bit;
use cells::records::load;
use model::Numbers;
use tables::Record;

// A bit for each of them, how many they are, and the slot of the last.
#[derive(Clone, Copy)]
pub struct Running {
    pub mask: u16,
    pub count: usize,
    pub slot: usize,
}

// Those found so far, and one more replica, if it is running.
fn found_with(found: Running, c: usize, k: Record) -> Running
    requires { (c < mask_bits) × (found.count ≤ c) }
    ensures { result ≡ if (runs k) (joined found c k) found }
{
    if k.crashed != 0 {
        return found;
    }
    Running {
        mask: with_bit(found.mask, c),
        count: found.count + 1,
        slot: k.slot as usize,
    }
}

pub fn find_running(numbers: Numbers, words: &[u16]) -> Running
    requires { (Bounds numbers) × (words_need numbers ≤ length words.now) }
    ensures { (os bs : List ℕ) → let k = view numbers (tables words.now os bs) in
        (Marked numbers.n (is_running numbers k) result.mask) × (result.count ≡ running_count numbers k) × (result.slot ≡ common_slot numbers k) }
{
    let mut found = Running {
        mask: 0,
        count: 0,
        slot: 0,
    };
    for c in 0..numbers.n {
        found = found_with(found, c, load(words, c));
    }
    found
}

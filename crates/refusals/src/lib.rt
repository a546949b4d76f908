// What every step but a crash asks first: refusals 3, 2, 4, 5, in this order. Inner code: no calls of the library.
#![tactic(auto)]

ghost use Rattle.std.specs.Prelude.{◌≡◌, false, length};
ghost use Rattle.tables.specs.Bounds.{Bounds};
ghost use Rattle.tables.specs.Checks.{lengths, long};
ghost use Rattle.tables.specs.Lent.{held, read};
ghost use Rattle.refusals.specs.Vet.{run_spoiled, vetted, first_vetted};

use cells::records::{any_spoiled, known_in, load};
use layout::{ballots_need, orders_need, words_need};
use model::{Numbers, Refusal};
use tables::{Lengths, Memory, MemoryRef};
use values::limits::numbers_limited;

// No memory is "shorter than the run needs".
#[tactic(auto, unfolding(tables::specs::Checks::long))]
pub fn tables_long(numbers: Numbers, lengths: Lengths) -> bool
    requires { Bounds numbers }
    ensures { result ≡ long numbers lengths }
{
    words_need(numbers) <= lengths.words
        && orders_need(numbers) <= lengths.orders
        && ballots_need(numbers) <= lengths.ballots
}

pub fn measure(memory: MemoryRef) -> Lengths
    ensures { result ≡ lengths (read memory.entry) }
{
    Lengths {
        words: memory.words.len(),
        orders: memory.orders.len(),
        ballots: memory.ballots.len(),
    }
}

// 3: of the numbers, the count of known tags and the records.
#[tactic(auto, using(tables::specs::Bounds::bounds))]
#[inline(always)]
pub fn run_spoiled(numbers: Numbers, words: &[u16]) -> bool
    ensures { result ≡ run_spoiled numbers words.now }
{
    !numbers_limited(numbers)
        || numbers.room < usize::from(known_in(words))
        || any_spoiled(numbers, words)
}

// 2, 4, 5, behind 3.
#[inline(always)]
pub fn vet(
    numbers: Numbers,
    who: usize,
    other: usize,
    lengths: Lengths,
    strip: usize,
    words: &[u16],
) -> Result<(), Refusal>
    requires { (run_spoiled numbers words.now ≡ false) × (lengths.words ≡ length words.now) }
    ensures { result ≡ vetted numbers who other lengths strip words.now }
{
    if !tables_long(numbers, lengths) || strip < numbers.slots * numbers.phases {
        return Err(Refusal::ShortTable);
    }
    if numbers.n <= who || numbers.n <= other {
        return Err(Refusal::NoSuchReplica);
    }
    if load(words, who).crashed != 0 {
        return Err(Refusal::Crashed);
    }
    Ok(())
}

// 3, 2, 4, 5. `who` acts; `other` is a second replica that the step names, or `who` again. The compiler is told to join it and
// its two parts with each step: by its own measure they are too large for that.
#[inline(always)]
pub fn admit(
    numbers: Numbers,
    who: usize,
    other: usize,
    memory: &Memory,
    strip: usize,
) -> Result<(), Refusal>
    ensures { result ≡ first_vetted numbers who other strip (held memory.now) }
{
    if run_spoiled(numbers, memory.words) {
        return Err(Refusal::SpoiledRecord);
    }
    let lengths = measure(memory.to_read());
    vet(numbers, who, other, lengths, strip, memory.words)
}

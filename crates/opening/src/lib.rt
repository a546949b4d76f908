// Opening: a run starts on lent memories. The call of the library is `open`.
#![tactic(auto)]

ghost use Rattle.std.specs.Prelude.{◌≡◌, ◌≤◌, ◌++◌, length, replicate, drop};
ghost use Rattle.model.specs.declared.Answer.TheVariants.{Opened};
ghost use Rattle.model.specs.Answers.{answer_in};
ghost use Rattle.tables.specs.Bounds.{Bounds, Long};
ghost use Rattle.tables.specs.Calls.{opened, open_outcome, open_rack};
ghost use Rattle.tables.specs.Checks.{lengths};
ghost use Rattle.tables.specs.Lent.{held, Same};

use coin::fill_cells;
use layout::{ballots_need, orders_need, words_need};
use model::{Numbers, Plan, Refusal};
use refusals::{measure, tables_long};
use tables::Memory;
use values::limits::{plan_limited, plan_numbers};

// The cells that the run needs become zero, and the rest is not touched.
fn clear<T: Copy>(cells: &mut [T], count: usize, zero: T)
    requires { count ≤ length cells.old }
    ensures { cells.new ≡ replicate count zero ++ drop count cells.old }
{
    for cell in &mut cells[..count] {
        *cell = zero;
    }
}

// "lit and idle at slot 0": such a record is all zeros.
fn clear_tables(numbers: Numbers, memory: &mut Memory)
    requires { Bounds numbers × Long numbers (lengths (held memory.old)) }
    ensures same { Same memory.old memory.new }
    ensures left { held memory.new ≡ opened numbers (held memory.old) }
{
    clear(memory.words, words_need(numbers), 0);
    clear(memory.orders, orders_need(numbers), 0);
    clear(memory.ballots, ballots_need(numbers), 0);
}

// "An opening makes all n controllers lit and idle at slot 0, clears the part of each table that the run needs and fills the
// strip from its coin start; the rest is not touched." It answers the run numbers.
pub fn open(plan: Plan, memory: &mut Memory, strip: &mut [u8]) -> Result<Numbers, Refusal>
    ensures same { Same memory.old memory.new }
    ensures outcome { open_outcome (answer_in Opened result) (held memory.new) strip.new ≡ open_rack plan (held memory.old) strip.old }
{
    if !plan_limited(plan) {
        return Err(Refusal::BadPlan);
    }
    let numbers = plan_numbers(plan);
    if !tables_long(numbers, measure(memory.to_read()))
        || strip.len() < numbers.slots * numbers.phases
    {
        return Err(Refusal::ShortTable);
    }
    clear_tables(numbers, memory);
    fill_cells(numbers.slots, numbers.phases, plan.start, strip);
    Ok(numbers)
}

// Where everything stands in the lent memories: specs/Layout of the crate tables, in code. Another section, a larger record,
// another row of a slot or a window of slots changes this file and no other. Inner code: no calls of the library.
#![tactic(auto)]

ghost use Rattle.std.specs.Prelude.{◌≡◌, true, ◌<◌};
ghost use Rattle.model.specs.Rules.{phase_in};
ghost use Rattle.tables.specs.Layout.{mask_bits, record_cell, record_end, row, slot_end, has_row, slot_row, message_rows};
ghost use Rattle.tables.specs.Layout.{ballot_rows, holders_base, heard_base, words_need, heard_cell, proposals_base};
ghost use Rattle.tables.specs.Layout.{logs_base, orders_need, proposal_cell, log_cell, ballot_cell, ballots_need};
ghost use Rattle.tables.specs.Bounds.{Bounds};
ghost use Rattle.tables.specs.Addresses.{Addressed};

use model::{Numbers, Sort};
use tables::{Address, HEADER_WORDS, RECORD_WORDS};

// ---- slots and their rows

// The first slot that has no row.
pub fn slot_end(numbers: Numbers) -> usize
    ensures { result ≡ slot_end numbers }
{
    numbers.slots
}

pub fn has_row(numbers: Numbers, slot: usize) -> bool
    ensures { result ≡ has_row numbers slot }
{
    slot < slot_end(numbers)
}

#[inline(always)]
fn slot_row(numbers: Numbers, slot: usize) -> usize
    ensures { result ≡ slot_row numbers slot }
{
    slot
}

#[inline(always)]
fn message_rows(numbers: Numbers) -> usize
    requires { Bounds numbers }
    ensures { result ≡ message_rows numbers }
{
    2 * numbers.phases + 2
}

#[inline(always)]
fn ballot_rows(numbers: Numbers) -> usize
    requires { Bounds numbers }
    ensures { result ≡ ballot_rows numbers }
{
    2 * numbers.phases
}

// The row of a message among those of its slot.
#[tactic(auto, using(crate::proofs::PlaceLaws::row_small), unfolding(tables::specs::Layout::row))]
#[inline(always)]
fn row_of(numbers: Numbers, sort: Sort, phase: usize) -> usize
    requires { (Bounds numbers) × (phase_in numbers sort phase ≡ true) }
    ensures { result ≡ row sort phase }
{
    match sort {
        Sort::Proposals => 0,
        Sort::States => 2 * phase,
        Sort::Votes => 2 * phase + 1,
        Sort::Notices => 1,
    }
}

// ---- words: header, records, holders, heard

pub fn record_place(c: usize) -> usize
    requires { c < mask_bits }
    ensures { result ≡ record_cell c }
{
    RECORD_WORDS * c + HEADER_WORDS
}

pub fn record_past(c: usize) -> usize
    requires { c < mask_bits }
    ensures { result ≡ record_end c }
{
    RECORD_WORDS * c + (HEADER_WORDS + RECORD_WORDS)
}

#[inline(always)]
pub fn holders_base(numbers: Numbers) -> usize
    requires { Bounds numbers }
    ensures { result ≡ holders_base numbers }
{
    RECORD_WORDS * numbers.n + HEADER_WORDS
}

#[inline(always)]
fn heard_base(numbers: Numbers) -> usize
    requires { Bounds numbers }
    ensures { result ≡ heard_base numbers }
{
    holders_base(numbers) + numbers.room
}

pub fn words_need(numbers: Numbers) -> usize
    requires { Bounds numbers }
    ensures { result ≡ words_need numbers }
{
    let base = heard_base(numbers);
    let rows = message_rows(numbers);
    base + numbers.slots * rows * numbers.n
}

#[inline(always)]
pub fn heard_place(numbers: Numbers, at: Address) -> usize
    requires { (Bounds numbers) × (Addressed numbers at) }
    ensures { result ≡ heard_cell numbers at.sort at.slot at.phase at.sender }
{
    let base = heard_base(numbers);
    let line = slot_row(numbers, at.slot);
    let rows = message_rows(numbers);
    let row = row_of(numbers, at.sort, at.phase);
    base + ((line * rows + row) * numbers.n + at.sender)
}

// ---- orders: tags, proposals, logs

#[inline(always)]
fn proposals_base(numbers: Numbers) -> usize
    ensures { result ≡ proposals_base numbers }
{
    numbers.room
}

#[inline(always)]
fn logs_base(numbers: Numbers) -> usize
    requires { Bounds numbers }
    ensures { result ≡ logs_base numbers }
{
    proposals_base(numbers) + numbers.slots * numbers.n
}

pub fn orders_need(numbers: Numbers) -> usize
    requires { Bounds numbers }
    ensures { result ≡ orders_need numbers }
{
    logs_base(numbers) + numbers.n * numbers.slots
}

#[inline(always)]
pub fn proposal_place(numbers: Numbers, slot: usize, sender: usize) -> usize
    requires { (Bounds numbers) × (slot < numbers.slots) × (sender < numbers.n) }
    ensures { result ≡ proposal_cell numbers slot sender }
{
    let base = proposals_base(numbers);
    let line = slot_row(numbers, slot);
    base + (line * numbers.n + sender)
}

#[inline(always)]
pub fn log_place(numbers: Numbers, c: usize, slot: usize) -> usize
    requires { (Bounds numbers) × (c < numbers.n) × (slot < numbers.slots) }
    ensures { result ≡ log_cell numbers c slot }
{
    let base = logs_base(numbers);
    let line = slot_row(numbers, slot);
    base + (c * numbers.slots + line)
}

// ---- ballots

pub fn ballots_need(numbers: Numbers) -> usize
    requires { Bounds numbers }
    ensures { result ≡ ballots_need numbers }
{
    let rows = ballot_rows(numbers);
    numbers.slots * rows * numbers.n
}

// Proposals and notices have no cell among the ballots; their place there is row 0.
#[inline(always)]
pub fn ballot_place(numbers: Numbers, at: Address) -> usize
    requires { (Bounds numbers) × (Addressed numbers at) }
    ensures { result ≡ ballot_cell numbers at.sort at.slot at.phase at.sender }
{
    let line = slot_row(numbers, at.slot);
    let rows = ballot_rows(numbers);
    let row = row_of(numbers, at.sort, at.phase).saturating_sub(2);
    (line * rows + row) * numbers.n + at.sender
}

// What a message says, by the number that stands for it, and what a replica has heard of it.
#![tactic(auto, using(model::proofs::Branches::picks), unfolding(tables::specs::View::word_in, tables::specs::View::notice_in))]

ghost use Rattle.std.specs.Prelude.{◌≡◌, ◌<◌, ◌≤◌, length, get_or};
ghost use Rattle.tables.specs.Layout.{mask_bits, heard_cell, log_cell, words_need, orders_need};
ghost use Rattle.tables.specs.View.{word_in, notice_in, counts_for, closed_in, sent_words, inbox_in};
ghost use Rattle.tables.specs.Write.{word_number};
ghost use Rattle.tables.specs.Bounds.{Bounds};
ghost use Rattle.tables.specs.Addresses.{Addressed};
ghost use Rattle.tables.specs.Lent.{read};
ghost use Rattle.messages.specs.Reach.{Reach};

use cells::masks::has_bit;
use cells::records::load;
use layout::{ballot_place, heard_place, log_place, proposal_place};
use model::{Numbers, Sort, Word};
use tables::{Address, MemoryRef};

// What the number in a cell says, by the sort of the message.
#[inline(always)]
fn word_in(sort: Sort, x: u64) -> Word
    ensures { result ≡ word_in sort x }
{
    match (sort, x) {
        (Sort::Proposals, 1..) => Word::Tag(x),
        (Sort::States | Sort::Votes, 1) => Word::Say(false),
        (Sort::States | Sort::Votes, 2) => Word::Say(true),
        (Sort::Votes, 3) => Word::Unsure,
        _ => Word::Unsent,
    }
}

// A notice has no cell of its own: its sender has closed the slot, and this is the entry.
#[inline(always)]
fn notice_word(numbers: Numbers, slot: usize, sender: usize, words: &[u16], orders: &[u64]) -> Word
    requires { (Bounds numbers) × (sender < numbers.n) × (slot < numbers.slots)
        × (words_need numbers ≤ length words.now) × (orders_need numbers ≤ length orders.now) }
    ensures { result ≡ notice_in (closed_in words.now sender) slot (get_or orders.now (log_cell numbers sender slot) 0) }
{
    if slot < load(words, sender).slot as usize {
        Word::Tag(orders[log_place(numbers, sender, slot)])
    } else {
        Word::Unsent
    }
}

pub fn word_number(word: Word) -> u64
    ensures { result ≡ word_number word }
{
    match word {
        Word::Unsent => 0,
        Word::Tag(x) => x,
        Word::Say(false) => 1,
        Word::Say(true) => 2,
        Word::Unsure => 3,
    }
}

#[tactic(auto, using(model::proofs::Branches::picks), unfolding(tables::specs::View::letter, tables::specs::View::only))]
#[inline(always)]
pub fn sent_word(numbers: Numbers, at: Address, memory: MemoryRef) -> Word
    requires { (Addressed numbers at) × (Reach numbers (read memory)) }
    ensures { let t = read memory.entry in
        result ≡ sent_words numbers t.words t.orders t.ballots at.sort at.slot at.phase at.sender }
{
    match at.sort {
        Sort::Proposals => word_in(
            at.sort,
            memory.orders[proposal_place(numbers, at.slot, at.sender)],
        ),
        Sort::Notices => notice_word(numbers, at.slot, at.sender, memory.words, memory.orders),
        _ => word_in(at.sort, memory.ballots[ballot_place(numbers, at)] as u64),
    }
}

// Whether a sent message counts as heard by `who`: its own does, and no mark is looked up for it.
#[inline(always)]
pub fn counts_for(numbers: Numbers, who: usize, at: Address, words: &[u16]) -> bool
    requires { (who < mask_bits) × (Bounds numbers) × (Addressed numbers at) × (words_need numbers ≤ length words.now) }
    ensures { result ≡ counts_for who at.sender (get_or words.now (heard_cell numbers at.sort at.slot at.phase at.sender) 0) }
{
    at.sender == who || has_bit(words[heard_place(numbers, at)], who)
}

// What `who` has heard of it.
#[inline(always)]
pub fn heard_word(numbers: Numbers, who: usize, at: Address, memory: MemoryRef) -> Word
    requires { (who < mask_bits) × (Addressed numbers at) × (Reach numbers (read memory)) }
    ensures { let t = read memory.entry in
        result ≡ inbox_in numbers t.words t.orders t.ballots who at.sort at.slot at.phase at.sender }
{
    if counts_for(numbers, who, at, memory.words) {
        sent_word(numbers, at, memory)
    } else {
        Word::Unsent
    }
}

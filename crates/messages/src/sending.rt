// What sending and hearing a message store.
ghost use Rattle.std.specs.Prelude.{◌≡◌, ◌<◌, ◌≤◌, ◌^◌, length, get_or, set};
ghost use Rattle.tables.specs.Layout.{mask_bits, with_bit, proposal_cell, ballot_cell, heard_cell, words_need};
ghost use Rattle.tables.specs.Bounds.{Bounds};
ghost use Rattle.tables.specs.Write.{word_number, proposal_stored, ballot_stored};
ghost use Rattle.tables.specs.Addresses.{Addressed};
ghost use Rattle.tables.specs.Calls.{tables};
ghost use Rattle.tables.specs.Lent.{held, Same};
ghost use Rattle.messages.specs.Reach.{Reach, Fitting};

use crate::words::word_number;
use cells::masks::{own_bit, with_bit};
use layout::{ballot_place, heard_place, proposal_place};
use model::{Numbers, Sort, Word};
use tables::{Address, Memory};

// The mark of a message that is sent: its sender's, and nobody else's. A notice is no more than that, beside a record and an entry.
pub fn store_mark(numbers: Numbers, at: Address, words: &mut [u16])
    requires { (Bounds numbers) × (Addressed numbers at) × (words_need numbers ≤ length words.old) }
    ensures { words.new ≡ set words.old (heard_cell numbers at.sort at.slot at.phase at.sender) (2 ^ at.sender) }
{
    words[heard_place(numbers, at)] = own_bit(at.sender);
}

pub fn send_message(numbers: Numbers, at: Address, word: Word, memory: &mut Memory)
    requires { (Addressed numbers at) × (Fitting at.sort word) × (Reach numbers (held memory.old)) }
    ensures same { Same memory.old memory.new }
    ensures left { let t = held memory.old in
        held memory.new ≡ tables (set t.words (heard_cell numbers at.sort at.slot at.phase at.sender) (2 ^ at.sender))
        (proposal_stored at.sort (proposal_cell numbers at.slot at.sender) (word_number word) t.orders)
        (ballot_stored at.sort (ballot_cell numbers at.sort at.slot at.phase at.sender) (word_number word) t.ballots) }
{
    let x = word_number(word);
    store_mark(numbers, at, memory.words);
    match at.sort {
        Sort::Proposals => memory.orders[proposal_place(numbers, at.slot, at.sender)] = x,
        Sort::Notices => {}
        _ => memory.ballots[ballot_place(numbers, at)] = x as u8,
    }
}

// `who` hears the message.
#[inline(always)]
pub fn mark_heard(numbers: Numbers, who: usize, at: Address, words: &mut [u16])
    requires { (who < mask_bits) × (Bounds numbers) × (Addressed numbers at) × (words_need numbers ≤ length words.old) }
    ensures { let i = heard_cell numbers at.sort at.slot at.phase at.sender in
        words.new ≡ set words.old i (with_bit (get_or words.old i 0) who) }
{
    let mark = &mut words[heard_place(numbers, at)];
    *mark = with_bit(*mark, who);
}

// What a send, a close and a find store. Each loads the acting record once.
ghost use Rattle.std.specs.Prelude.{List, ◌≡◌, ℕ};
ghost use Rattle.model.specs.declared.Round.TheVariants.{Find};
ghost use Rattle.model.specs.declared.Effect.TheVariants.{Send, Close};
ghost use Rattle.model.specs.Rack.{round_of};
ghost use Rattle.tables.specs.Layout.{record_at};
ghost use Rattle.tables.specs.Addresses.{Within};
ghost use Rattle.tables.specs.Write.{moved, with_change, write};
ghost use Rattle.tables.specs.Calls.{tables};
ghost use Rattle.tables.specs.Lent.{held, Same};
ghost use Rattle.known.specs.Room.{Acting};
ghost use Rattle.messages.specs.Reach.{Reach, Fitting};
ghost use Rattle.effects.specs.Doable.{RecordThere, Closable};

use crate::stand::{enter, log_entry, shut};
use cells::records::load;
use messages::sending::{send_message, store_mark};
use model::{Numbers, Round, Sort, Word};
use tables::{Address, Memory, Record};

fn round_of(sort: Sort) -> Round
    ensures { result ≡ round_of sort }
{
    match sort {
        Sort::Proposals => Round::Exchange,
        Sort::States => Round::State,
        Sort::Votes => Round::Vote,
        Sort::Notices => Round::Idle,
    }
}

// The record of `who`. Of one table that is read behind a `&mut Memory` the prover forgets what stands in it, of the memory as a
// whole it doesn't.
fn own_record(who: usize, memory: &Memory) -> Record
    requires { RecordThere who (held memory.now).words }
    ensures { result ≡ record_at (held memory.now).words who }
{
    load(memory.words, who)
}

pub fn send(numbers: Numbers, who: usize, sort: Sort, phase: usize, word: Word, memory: &mut Memory)
    requires { (Within numbers sort (record_at (held memory.old).words who).slot phase who) × (Fitting sort word)
        × (Reach numbers (held memory.old)) }
    ensures same { Same memory.old memory.new }
    ensures left { held memory.new ≡ write numbers who (Send sort phase word) (held memory.old) }
{
    let k = own_record(who, memory);
    let slot = k.slot as usize;
    let at = Address {
        sort,
        slot,
        phase,
        sender: who,
    };
    send_message(numbers, at, word, memory);
    enter(who, k, round_of(sort), k.slot, phase as u16, memory.words);
}

// The entry, and its notice's mark; whatever stands in the ballots.
pub fn close(numbers: Numbers, who: usize, x: u64, own: bool, words: &mut [u16], orders: &mut [u64])
    requires { (Acting numbers who words.old orders.old) × (Closable numbers (record_at words.old who)) }
    ensures { (bs : List ℕ) → tables words.new orders.new bs
        ≡ write numbers who (Close x own) (tables words.old orders.old bs) }
{
    let k = load(words, who);
    let slot = k.slot as usize;
    log_entry(numbers, who, slot, x, orders);
    let notice = Address {
        sort: Sort::Notices,
        slot,
        phase: 0,
        sender: who,
    };
    store_mark(numbers, notice, words);
    shut(who, k, x, own, words);
}

pub fn seek(who: usize, words: &mut [u16])
    requires { RecordThere who words.old }
    ensures { let k = record_at words.old who in
        words.new ≡ with_change words.old who (moved Find k.slot k.phase) }
{
    let k = load(words, who);
    enter(who, k, Round::Find, k.slot, k.phase, words);
}

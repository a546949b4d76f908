// A replica's record, after it moved, closed its slot or halted; and its log.
ghost use Rattle.std.specs.Prelude.{◌≡◌, ◌<◌, ◌≤◌, length, set};
ghost use Rattle.model.specs.Limits.{most_slots};
ghost use Rattle.tables.specs.Layout.{record_at, record_stored, log_cell, orders_need};
ghost use Rattle.tables.specs.Bounds.{Bounds};
ghost use Rattle.tables.specs.Write.{moved, shut as shut_with, halted};
ghost use Rattle.tables.specs.Sound.{CountsFit};
ghost use Rattle.effects.specs.Doable.{RecordThere};

use cells::records::{load, store};
use layout::log_place;
use model::{Numbers, Round};
use tables::Record;

// A record that was loaded already is stored with another round, slot and phase.
pub fn enter(who: usize, k: Record, round: Round, slot: u16, phase: u16, words: &mut [u16])
    requires { RecordThere who words.old }
    ensures { words.new ≡ record_stored words.old who (moved round slot phase k) }
{
    let round = u16::from(round);
    store(
        words,
        who,
        Record {
            round,
            slot,
            phase,
            ..k
        },
    );
}

// A record that was loaded already is stored with its slot closed. Its two counts are those of "empty slots closed" and of "closed
// slots whose outcome it reached in phase 1 itself". "Both are raised when the slot closes."
pub fn shut(who: usize, k: Record, x: u64, own: bool, words: &mut [u16])
    requires { (RecordThere who words.old) × (k.slot < most_slots) × (CountsFit k) }
    ensures { words.new ≡ record_stored words.old who (shut_with x own k) }
{
    let next = Record {
        round: u16::from(Round::Idle),
        slot: k.slot + 1,
        empty: k.empty + u16::from(x == 0),
        fast: k.fast + u16::from(own && k.phase == 1),
        ..k
    };
    store(words, who, next);
}

pub fn halt(who: usize, words: &mut [u16])
    requires { RecordThere who words.old }
    ensures { words.new ≡ record_stored words.old who (halted (record_at words.old who)) }
{
    let k = load(words, who);
    store(words, who, Record { crashed: 1, ..k });
}

pub fn log_entry(numbers: Numbers, who: usize, slot: usize, x: u64, orders: &mut [u64])
    requires { (Bounds numbers) × (who < numbers.n) × (slot < numbers.slots) × (orders_need numbers ≤ length orders.old) }
    ensures { orders.new ≡ set orders.old (log_cell numbers who slot) x }
{
    orders[log_place(numbers, who, slot)] = x;
}

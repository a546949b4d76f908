// "A controller in that slot, or idle before it, that has heard such a notice closes with that entry at its next advance, ahead
// of every other rule". Inner code: no calls of the library.
#![tactic(auto, using(model::proofs::Branches::picks), unfolding(model::specs::Rules::phase_in, model::specs::Rules::heed, model::specs::TurnedAway::unless))]

ghost use Rattle.std.specs.Prelude.{◌≡◌, false, ◌<◌, ◌≤◌, ◌*◌, length};
ghost use Rattle.model.specs.Coins.{coin};
ghost use Rattle.model.specs.TurnedAway.{settle};
ghost use Rattle.model.specs.Rules.{notice, advance_rule, heed as heeding};
ghost use Rattle.tables.specs.Checks.{misplaced};
ghost use Rattle.tables.specs.Lent.{read};
ghost use Rattle.messages.specs.Reach.{Reach};
ghost use Rattle.tallies.specs.Heard.{InSlot, heard_by};
ghost use Rattle.advance.specs.Noticed.{noticed as noticed_by};

use crate::advance_rule;
use layout::has_row;
use messages::words::heard_word;
use model::{Effect, Numbers, Round, Sort, Word};
use tables::{Address, MemoryRef};
use values::words::{is_sent, tag_of};

// "of several notices the lowest sender's counts"
fn first_notice(numbers: Numbers, who: usize, slot: usize, memory: MemoryRef) -> Word
    requires { InSlot numbers who slot (read memory) }
    ensures { result ≡ notice numbers (heard_by numbers who slot 0 (read memory.entry)) }
{
    for sender in 0..numbers.n {
        let at = Address {
            sort: Sort::Notices,
            slot,
            phase: 0,
            sender,
        };
        let word = heard_word(numbers, who, at, memory);
        if is_sent(word) {
            return word;
        }
    }
    Word::Unsent
}

// An idle replica that has closed all slots has no current one, and no row for its notices.
fn noticed(numbers: Numbers, who: usize, slot: usize, memory: MemoryRef) -> Word
    requires { (who < numbers.n) × (Reach numbers (read memory)) }
    ensures { result ≡ noticed_by numbers who slot (read memory.entry) }
{
    if has_row(numbers, slot) {
        first_notice(numbers, who, slot, memory)
    } else {
        Word::Unsent
    }
}

pub fn heed(
    numbers: Numbers,
    who: usize,
    round: Round,
    slot: usize,
    phase: usize,
    memory: MemoryRef,
    strip: &[u8],
) -> Effect
    requires { (who < numbers.n) × (misplaced numbers round slot phase ≡ false) × (Reach numbers (read memory))
        × (numbers.slots * numbers.phases ≤ length strip.now) }
    ensures { let k = heard_by numbers who slot phase (read memory.entry) in
        let word = noticed_by numbers who slot (read memory.entry) in
        result ≡ settle (heeding word (advance_rule numbers (coin numbers.phases strip.now slot phase) k round)) }
{
    let word = noticed(numbers, who, slot, memory);
    if is_sent(word) {
        Effect::Close {
            entry: tag_of(word),
            own: false,
        }
    } else {
        advance_rule(numbers, who, round, slot, phase, memory, strip)
    }
}

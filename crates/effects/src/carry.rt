// What an advance comes to is stored.
ghost use Rattle.std.specs.Prelude.{◌≡◌, true};
ghost use Rattle.tables.specs.Write.{write};
ghost use Rattle.tables.specs.Lent.{held, Same};
ghost use Rattle.effects.specs.Doable.{Doable, by_advance};

use crate::sends::{close, seek, send};
use model::{Effect, Numbers};
use tables::Memory;

// A message, an entry, or the find round: no other effect is an advance's.
pub fn carry_advance(numbers: Numbers, who: usize, effect: Effect, memory: &mut Memory)
    requires { (Doable numbers who effect (held memory.old)) × (by_advance effect ≡ true) }
    ensures same { Same memory.old memory.new }
    ensures left { held memory.new ≡ write numbers who effect (held memory.old) }
{
    match effect {
        Effect::Send { sort, phase, word } => send(numbers, who, sort, phase, word, memory),
        Effect::Close { entry, own } => close(
            numbers,
            who,
            entry,
            own,
            memory.words,
            memory.orders,
        ),
        Effect::Seek => seek(who, memory.words),
        _ => {}
    }
}

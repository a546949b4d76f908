// Crash for callers in C: it is lent the one record of the replica that it names.
ghost use Rattle.std.specs.Prelude.{◌≡◌};
ghost use Rattle.tables.specs.Calls.{crashed};

use crate::number_of;
use crash::crash_core;
use model::{Numbers, ReplicaId};
use tables::Record;

// "A crash step is lent one controller's record and darkens it there."
#[unsafe(no_mangle)]
pub extern "C" fn rushhopper_crash(numbers: Numbers, who: ReplicaId, lent: &mut Record) -> usize
    ensures { let o = crashed numbers who.0 lent.old in
        (result ≡ o.number) × (lent.new ≡ o.after) }
{
    let crashed = crash_core(numbers, who, *lent);
    *lent = crashed.unwrap_or(*lent);
    number_of(&crashed)
}

// Logs for the archive, and back, for callers in C, as the calls of the same names. 0, or the number of a refusal.
ghost use Rattle.std.specs.Prelude.{◌≡◌};
ghost use Rattle.shelf.specs.Calls.{to_planes as planes_of, to_entries as entries_of};

use crate::number_of;
use archive::{to_entries, to_planes};

#[unsafe(no_mangle)]
pub extern "C" fn rushhopper_to_planes(entries: &[u64], stored: &mut [u8]) -> usize
    ensures { let o = planes_of entries.now stored.old in
        (result ≡ o.number) × (stored.new ≡ o.state) }
{
    number_of(&to_planes(entries, stored))
}

#[unsafe(no_mangle)]
pub extern "C" fn rushhopper_to_entries(stored: &[u8], entries: &mut [u64]) -> usize
    ensures { let o = entries_of stored.now entries.old in
        (result ≡ o.number) × (entries.new ≡ o.state) }
{
    number_of(&to_entries(stored, entries))
}

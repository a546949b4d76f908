// Logs laid out for the archive, by byte plane, and back. The calls of the library are `to_planes` and `to_entries`.
#![tactic(auto)]

ghost use Rattle.std.specs.Prelude.{◌≡◌, ◌*◌, ◌<◌, ◌≤◌, length};
ghost use Rattle.model.specs.declared.Answer.TheVariants.{Done};
ghost use Rattle.model.specs.Answers.{answer_in};
ghost use Rattle.model.specs.Scripts.{ended};
ghost use Rattle.shelf.specs.Planes.{entry_bytes, plane, planes, entry_at, entry_count, entries_of};
ghost use Rattle.shelf.specs.Calls.{most_entries, over, to_planes, to_entries};

use model::Refusal;

// "1 above 1,024 entries or 8,192 stored bytes"
const MOST_ENTRIES: usize = 1024;

const MOST_STORED: usize = 8192;

// Bytes of an entry, and so planes.
const ENTRY_BYTES: usize = 8;

// One plane, from its last byte back: forwards the compiler packs two entries at a time, which takes longer than a byte after the
// other.
fn write_plane(number: usize, entries: &[u64], output: &mut [u8])
    requires { (number < entry_bytes) × (length output.old ≡ length entries.now) }
    ensures { output.new ≡ plane entries.now number }
{
    let shift = 8 * (7 - number);
    for place in (0..output.len()).rev() {
        output[place] = ((entries[place] >> shift) % 256) as u8;
    }
}

// All planes, the highest bytes first.
fn write_planes(entries: &[u64], stored: &mut [u8])
    requires { (length entries.now ≤ most_entries) × (entry_bytes * length entries.now ≤ length stored.old) }
    ensures { stored.new ≡ over (planes entries.now) stored.old }
{
    let count = entries.len();
    for number in 0..ENTRY_BYTES {
        let at = number * count;
        write_plane(number, entries, &mut stored[at..at + count]);
    }
}

// "1 above 1,024 entries ..; then 2 if the output is short; nothing is written."
pub fn to_planes(entries: &[u64], stored: &mut [u8]) -> Result<(), Refusal>
    ensures { ended (answer_in (λ _. Done) result) stored.new ≡ to_planes entries.now stored.old }
{
    if MOST_ENTRIES < entries.len() {
        return Err(Refusal::BadPlan);
    }
    if stored.len() < ENTRY_BYTES * entries.len() {
        return Err(Refusal::ShortTable);
    }
    write_planes(entries, stored);
    Ok(())
}

// The entry at a place of a log of so many entries: its byte of every plane. By their weight: they stand in eight planes, and would have to
// be put side by side first for `from_be_bytes`.
fn read_entry(count: usize, place: usize, stored: &[u8]) -> u64
    requires { (count ≤ most_entries) × (place < count) × (entry_bytes * count ≤ length stored.now) }
    ensures { result ≡ entry_at count stored.now place }
{
    let mut value: u64 = 0;
    for number in 0..ENTRY_BYTES {
        value = value * 256 + u64::from(stored[number * count + place]);
    }
    value
}

fn write_entries(stored: &[u8], entries: &mut [u64])
    requires { (length entries.old ≤ most_entries) × (length entries.old ≡ entry_count stored.now) }
    ensures { entries.new ≡ entries_of stored.now }
{
    let count = entries.len();
    for (place, entry) in entries.iter_mut().enumerate() {
        *entry = read_entry(count, place, stored);
    }
}

// "1 above .. 8,192 stored bytes; then 24 "odd length" if stored bytes are no multiple of 8; then 2 if the output is short;
// nothing is written."
pub fn to_entries(stored: &[u8], entries: &mut [u64]) -> Result<(), Refusal>
    ensures { ended (answer_in (λ _. Done) result) entries.new ≡ to_entries stored.now entries.old }
{
    if MOST_STORED < stored.len() {
        return Err(Refusal::BadPlan);
    }
    if stored.len() % ENTRY_BYTES != 0 {
        return Err(Refusal::OddLength);
    }
    let count = stored.len() / ENTRY_BYTES;
    if entries.len() < count {
        return Err(Refusal::ShortTable);
    }
    write_entries(stored, &mut entries[..count]);
    Ok(())
}

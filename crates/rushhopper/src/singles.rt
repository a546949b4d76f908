// The steps for callers in C. Each answers document 01's refusal number, 0 for an accepted step.
ghost use Rattle.std.specs.Prelude.{◌≡◌};
ghost use Rattle.model.specs.declared.Act.TheVariants.{Submit, Relay, Begin, Hear, Advance};
ghost use Rattle.tables.specs.Calls.{stepped};
ghost use Rattle.tables.specs.Lent.{moments};

use crate::number_of;
use acts::{begin, hear, relay, submit};
use model::{Message, Numbers, PhaseIndex, ReplicaId, SlotIndex};
use steps::advances::advance;
use tables::Memory;

// "The tag becomes known, if it wasn't, and this controller holds it."
#[unsafe(no_mangle)]
pub extern "C" fn rushhopper_submit(
    numbers: Numbers,
    who: ReplicaId,
    tag: u64,
    words: &mut [u16],
    orders: &mut [u64],
    ballots: &mut [u8],
    strip: &[u8],
) -> usize
    ensures { let t = moments words orders ballots in
        let o = stepped numbers strip.now (record { who = who; act = Submit tag }) t.entry in
        (result ≡ o.number) × (t.exit ≡ o.state) }
{
    let mut memory = Memory {
        words,
        orders,
        ballots,
    };
    number_of(&submit(numbers, who, tag, &mut memory, strip))
}

// "A known tag is held by one more controller."
#[unsafe(no_mangle)]
pub extern "C" fn rushhopper_relay(
    numbers: Numbers,
    who: ReplicaId,
    tag: u64,
    words: &mut [u16],
    orders: &mut [u64],
    ballots: &mut [u8],
    strip: &[u8],
) -> usize
    ensures { let t = moments words orders ballots in
        let o = stepped numbers strip.now (record { who = who; act = Relay tag }) t.entry in
        (result ≡ o.number) × (t.exit ≡ o.state) }
{
    let mut memory = Memory {
        words,
        orders,
        ballots,
    };
    number_of(&relay(numbers, who, tag, &mut memory, strip))
}

// "An idle controller proposes" its first-ranked pending tag "and enters the exchange."
#[unsafe(no_mangle)]
pub extern "C" fn rushhopper_begin(
    numbers: Numbers,
    who: ReplicaId,
    words: &mut [u16],
    orders: &mut [u64],
    ballots: &mut [u8],
    strip: &[u8],
) -> usize
    ensures { let t = moments words orders ballots in
        let o = stepped numbers strip.now (record { who = who; act = Begin }) t.entry in
        (result ≡ o.number) × (t.exit ≡ o.state) }
{
    let mut memory = Memory {
        words,
        orders,
        ballots,
    };
    number_of(&begin(numbers, who, &mut memory, strip))
}

// "The acting controller of a hear is the receiver."
#[unsafe(no_mangle)]
pub extern "C" fn rushhopper_hear(
    numbers: Numbers,
    who: ReplicaId,
    sender: ReplicaId,
    sort: usize,
    slot: SlotIndex,
    phase: PhaseIndex,
    words: &mut [u16],
    orders: &mut [u64],
    ballots: &mut [u8],
    strip: &[u8],
) -> usize
    ensures { let t = moments words orders ballots in
        let o = stepped numbers strip.now
        (record { who = who; act = Hear (record { sort = sort; slot = slot; phase = phase; sender = sender }) }) t.entry in
        (result ≡ o.number) × (t.exit ≡ o.state) }
{
    let message = Message {
        sort,
        slot,
        phase,
        sender,
    };
    let mut memory = Memory {
        words,
        orders,
        ballots,
    };
    number_of(&hear(numbers, who, message, &mut memory, strip))
}

// By the rule of the replica's round.
#[unsafe(no_mangle)]
pub extern "C" fn rushhopper_advance(
    numbers: Numbers,
    who: ReplicaId,
    words: &mut [u16],
    orders: &mut [u64],
    ballots: &mut [u8],
    strip: &[u8],
) -> usize
    ensures { let t = moments words orders ballots in
        let o = stepped numbers strip.now (record { who = who; act = Advance }) t.entry in
        (result ≡ o.number) × (t.exit ≡ o.state) }
{
    let mut memory = Memory {
        words,
        orders,
        ballots,
    };
    number_of(&advance(numbers, who, &mut memory, strip))
}

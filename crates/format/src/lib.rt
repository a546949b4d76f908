// The format of step files: what stands at a place of one. `file_record` is a call of the library, and does the reader's work.
#![tactic(auto)]

ghost use Rattle.std.specs.Prelude.{◌≡◌, ◌+◌, ◌≤◌, length};
ghost use Rattle.files.specs.Format.{number, is_wide, slot_bytes, body_length, plan_at, message_at, call_at, file_record};
ghost use Rattle.files.specs.Numbered.{found_number, found_values, record_number, record_values};
ghost use Rattle.format.specs.Kinds.{kind_number, Known, staying};

pub use files::{Found, Read};
use model::{Act, Call, Message, Numbers, PhaseIndex, Plan, Refusal, ReplicaId, SlotIndex, Step};

// The kinds of records. Document 02: "A new opening, kind 8, and a new hear, kind 9, carry the slot count or slot in two bytes".
#[derive(Clone, Copy)]
enum Kind {
    Opening,
    Submit,
    Relay,
    Begin,
    Hear,
    Advance,
    Crash,
    RunOn,
    WideOpening,
    WideHear,
}

impl TryFrom<u8> for Kind {
    type Error = Refusal;

    ghost use Rattle.format.specs.Kinds.{Known};

    ghost try_from_gives = { λ k kind. Known k kind };

    fn try_from(k: u8) -> Result<Kind, Refusal> {
        match k {
            0 => Ok(Kind::Opening),
            1 => Ok(Kind::Submit),
            2 => Ok(Kind::Relay),
            3 => Ok(Kind::Begin),
            4 => Ok(Kind::Hear),
            5 => Ok(Kind::Advance),
            6 => Ok(Kind::Crash),
            7 => Ok(Kind::RunOn),
            8 => Ok(Kind::WideOpening),
            9 => Ok(Kind::WideHear),
            _ => Err(Refusal::UnknownKind),
        }
    }
}

// The number in so many bytes, the lowest first. By their weight, from the last byte back: `copy_from_slice` before `from_le_bytes` would
// need memcpy from outside.
fn number(k: usize, file: &[u8], i: usize) -> u64
    requires { (k ≤ 8) × (i + k ≤ length file.now) }
    ensures { result ≡ number k file.now i }
{
    let mut value: u64 = 0;
    for place in (0..k).rev() {
        value = value * 256 + u64::from(file[i + place]);
    }
    value
}

impl Kind {
    // How many bytes a slot count or slot has.
    fn slot_bytes(self) -> usize
        ensures { result ≡ slot_bytes (is_wide (kind_number self)) }
    {
        match self {
            Kind::WideHear | Kind::WideOpening => 2,
            _ => 1,
        }
    }

    fn body_length(self) -> usize
        ensures { result ≡ body_length (kind_number self) }
    {
        match self {
            Kind::Opening | Kind::WideOpening => self.slot_bytes() + 7,
            Kind::Submit | Kind::Relay => 9,
            Kind::Hear | Kind::WideHear => self.slot_bytes() + 4,
            _ => 1,
        }
    }

    fn plan_at(self, file: &[u8], i: usize) -> Plan
        requires { i + (slot_bytes (is_wide (kind_number self)) + 7) ≤ length file.now }
        ensures { result ≡ plan_at (is_wide (kind_number self)) file.now i }
    {
        let slot = self.slot_bytes();
        let numbers = Numbers {
            n: usize::from(file[i]),
            f: usize::from(file[i + 1]),
            slots: number(slot, file, i + 2) as usize,
            phases: usize::from(file[i + 2 + slot]),
            room: number(2, file, i + 3 + slot) as usize,
        };
        Plan {
            numbers,
            start: number(2, file, i + 5 + slot) as usize,
        }
    }

    // What follows the receiver of a hear.
    fn message_at(self, file: &[u8], i: usize) -> Message
        requires { i + (slot_bytes (is_wide (kind_number self)) + 3) ≤ length file.now }
        ensures { result ≡ message_at (is_wide (kind_number self)) file.now i }
    {
        let slot = self.slot_bytes();
        Message {
            sender: ReplicaId(usize::from(file[i])),
            sort: usize::from(file[i + 1]),
            slot: SlotIndex(number(slot, file, i + 2) as usize),
            phase: PhaseIndex(usize::from(file[i + 2 + slot])),
        }
    }

    fn call_at(self, file: &[u8], i: usize) -> Call
        requires { i + body_length (kind_number self) ≤ length file.now }
        ensures { result ≡ call_at (kind_number self) file.now i }
    {
        let who = ReplicaId(usize::from(file[i]));
        let act = match self {
            Kind::Opening | Kind::WideOpening => return Call::Open(self.plan_at(file, i)),
            Kind::RunOn => return Call::RunOn(who),
            Kind::Submit => Act::Submit(number(8, file, i + 1)),
            Kind::Relay => Act::Relay(number(8, file, i + 1)),
            Kind::Begin => Act::Begin,
            Kind::Hear | Kind::WideHear => Act::Hear(self.message_at(file, i + 1)),
            Kind::Advance => Act::Advance,
            Kind::Crash => Act::Crash,
        };
        Call::Single(Step { who, act })
    }
}

// Where reading does not stop.
fn read_on(file: &[u8], at: usize) -> Result<Read, Refusal>
    ensures { staying at result ≡ file_record file.now at }
{
    if file.len() <= at {
        return Ok(Read {
            found: Ok(None),
            next: at,
        });
    }
    let kind = Kind::try_from(file[at])?;
    let body = kind.body_length();
    if file.len() - (at + 1) < body {
        return Err(Refusal::CutRecord);
    }
    Ok(Read {
        found: Ok(Some(kind.call_at(file, at + 1))),
        next: at + 1 + body,
    })
}

// For every file and place.
pub fn file_record(file: &[u8], at: usize) -> Read
    ensures { let l = file.now in
        (result ≡ file_record l at) × (found_number result.found ≡ record_number l at) × (found_values result.found ≡ record_values l at) }
{
    match read_on(file, at) {
        Ok(read) => read,
        Err(why) => Read {
            found: Err(why),
            next: at,
        },
    }
}

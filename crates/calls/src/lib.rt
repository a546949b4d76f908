// Any call of a run. A crash is lent the record of the words. The call of the library is `perform`.
#![tactic(auto)]

ghost use Rattle.std.specs.Prelude.{◌≡◌};
ghost use Rattle.tables.specs.Calls.{open_outcome, called};
ghost use Rattle.tables.specs.Lent.{held, Same};

use conduct::{Conducted, conduct};
use model::{Answer, Call, Numbers};
use opening::open;
use runs::run_on;
use steps::take_step;
use tables::Memory;

// It does what the single calls do; demand 3 folds its contract.
pub fn perform(call: Call, numbers: Numbers, memory: &mut Memory, strip: &mut [u8]) -> Answer
    ensures same { Same memory.old memory.new }
    ensures outcome { open_outcome result (held memory.new) strip.new ≡ called numbers call (held memory.old) strip.old }
{
    match call {
        Call::Open(plan) => open(plan, memory, strip).map_or_else(Answer::Refused, Answer::Opened),
        Call::Single(step) => take_step(step, numbers, memory, strip).map_or_else(
            Answer::Refused,
            |()| Answer::Done,
        ),
        Call::RunOn(who) => run_on(numbers, who, memory, strip).map_or_else(
            Answer::Refused,
            Answer::Ran,
        ),
        Call::Conduct => conduct(numbers, memory, strip).map_or_else(
            Answer::Refused,
            |Conducted { steps, relays }| { Answer::Conducted { steps, relays } },
        ),
    }
}

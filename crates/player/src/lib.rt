// The player: each record is read, refused with 19, 20 or 21, or made a call. The call of the library is `play_record`.
#![tactic(auto)]

ghost use Rattle.std.specs.Prelude.{◌≡◌};
ghost use Rattle.model.specs.declared.Call.TheVariants.{Open};
ghost use Rattle.tables.specs.Calls.{open_outcome};
ghost use Rattle.tables.specs.Lent.{held, Same};
ghost use Rattle.files.specs.Play.{out_of_place, too_large, moved_on, called_in_place, turn_of, turn};

use calls::perform;
use files::Read;
pub use files::{Played, Player, Said};
use model::{Answer, Call, Numbers, Plan, Refusal};
use reader::read_at;
use tables::Memory;
use values::limits::{plan_limited, plan_numbers};

fn is_out_of_place(opened: bool, call: Call) -> bool
    ensures { result ≡ out_of_place opened call }
{
    match call {
        Call::Open(_) => opened,
        _ => !opened,
    }
}

fn numbers_beyond(most: Numbers, plan: Plan) -> bool
    ensures { result ≡ too_large most (Open plan) }
{
    let numbers = plan_numbers(plan);
    plan_limited(plan)
        && (most.n < numbers.n
            || most.slots < numbers.slots
            || most.phases < numbers.phases
            || most.room < numbers.room)
}

fn is_too_large(most: Numbers, call: Call) -> bool
    ensures { result ≡ too_large most call }
{
    match call {
        Call::Open(plan) => numbers_beyond(most, plan),
        _ => false,
    }
}

fn move_on(player: Player, next: usize, answer: Answer) -> Player
    ensures { result ≡ moved_on player next answer }
{
    match answer {
        Answer::Opened(numbers) => Player {
            at: next,
            opened: Some(numbers),
        },
        _ => Player { at: next, ..player },
    }
}

// Refusal 21, then 2 for an opening that is too large, then the call's own.
fn answer_call(
    most: Numbers,
    player: Player,
    call: Call,
    memory: &mut Memory,
    strip: &mut [u8],
) -> Answer
    ensures same { Same memory.old memory.new }
    ensures outcome { open_outcome result (held memory.new) strip.new ≡ called_in_place most player call (held memory.old) strip.old }
{
    if is_out_of_place(player.opened.is_some(), call) {
        return Answer::Refused(Refusal::OutOfPlace);
    }
    if is_too_large(most, call) {
        return Answer::Refused(Refusal::ShortTable);
    }
    perform(call, player.opened.unwrap_or_default(), memory, strip)
}

// One record.
pub fn play_record(
    most: Numbers,
    file: &[u8],
    player: Player,
    memory: &mut Memory,
    strip: &mut [u8],
) -> Played
    ensures same { Same memory.old memory.new }
    ensures outcome { turn_of result.said result.player (held memory.new) strip.new ≡ turn most file.now player (held memory.old) strip.old }
{
    let Read { found, next } = read_at(file, player.at);
    match found {
        Ok(None) => Played {
            said: Ok(None),
            player,
        },
        Ok(Some(call)) => {
            let answer = answer_call(most, player, call, memory, strip);
            Played {
                said: Ok(Some(answer)),
                player: move_on(player, next, answer),
            }
        }
        Err(why) => Played {
            said: Err(why),
            player,
        },
    }
}

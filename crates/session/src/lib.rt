// A step file is played from its first record to its last, and its report written. The call of the library is `play`.
#![tactic(auto)]

ghost use Rattle.std.specs.Prelude.{◌≡◌, Ok, Some, length};
ghost use Rattle.model.specs.declared.Answer.TheVariants.{Done};
ghost use Rattle.tables.specs.Lent.{held, Same};
ghost use Rattle.files.specs.Play.{turn_of, goes_on, play as played_on, begun};
ghost use Rattle.files.specs.Page.{shown, print, SameReport};
ghost use Rattle.files.specs.Reported.{said_line, lines, fresh, whole, report as report_of};

use files::{Played, Player, Report, Said};
use model::{Answer, Numbers};
use player::play_record;
use report::benches::put_benches;
use report::lines::{put_opened, put_refused};
use tables::Memory;

fn said_more(said: Said) -> bool
    ensures { result ≡ goes_on said }
{
    matches!(said, Ok(Some(_)))
}

fn put_answer(k: usize, answer: Answer, report: &mut Report)
    ensures same { SameReport report.old report.new }
    ensures text { shown report.new ≡ print (shown report.old) (said_line k (Ok (Some answer))) }
{
    match answer {
        Answer::Refused(why) => put_refused(k, why, report),
        Answer::Opened(numbers) => put_opened(numbers, report),
        _ => {}
    }
}

// The line of record k, if it has one.
fn put_said(k: usize, said: Said, report: &mut Report)
    ensures same { SameReport report.old report.new }
    ensures text { shown report.new ≡ print (shown report.old) (said_line k said) }
{
    match said {
        Ok(None) => {}
        Ok(Some(answer)) => put_answer(k, answer, report),
        Err(why) => put_refused(k, why, report),
    }
}

// before the first record
fn unplayed() -> Played
    ensures { (result.said ≡ Ok (Some Done)) × (result.player ≡ fresh) }
{
    Played {
        said: Ok(Some(Answer::Done)),
        player: Player {
            at: 0,
            opened: None,
        },
    }
}

// Every record is played, until the file has ended or reading has stopped.
fn play_records(
    most: Numbers,
    file: &[u8],
    report: &mut Report,
    memory: &mut Memory,
    strip: &mut [u8],
) -> Played
    ensures same { Same memory.old memory.new }
    ensures same_report { SameReport report.old report.new }
    ensures outcome { turn_of result.said result.player (held memory.new) strip.new
        ≡ played_on (length file.now) most file.now (begun fresh (held memory.old) strip.old) }
    ensures text { shown report.new
        ≡ print (shown report.old) (lines (length file.now) most file.now (begun fresh (held memory.old) strip.old)) }
{
    let mut last = unplayed();
    for i in 0..file.len() {
        if !said_more(last.said) {
            return last;
        }
        last = play_record(most, file, last.player, memory, strip);
        put_said(i + 1, last.said, report);
    }
    last
}

// The report goes behind what is written of the lent buffer already; what does not fit is left out.
pub fn play(
    most: Numbers,
    file: &[u8],
    report: &mut Report,
    memory: &mut Memory,
    strip: &mut [u8],
) -> Played
    ensures same { Same memory.old memory.new }
    ensures same_report { SameReport report.old report.new }
    ensures outcome { turn_of result.said result.player (held memory.new) strip.new ≡ whole most file.now (held memory.old) strip.old }
    ensures text { shown report.new ≡ print (shown report.old) (report_of most file.now (held memory.old) strip.old) }
{
    let last = play_records(most, file, report, memory, strip);
    if let Some(numbers) = last.player.opened {
        let read = memory.to_read();
        put_benches(numbers, read.words, read.orders, report);
    }
    last
}

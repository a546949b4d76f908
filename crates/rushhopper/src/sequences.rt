// Strips, openings, run on, the conductor and whole step files for callers in C, as the calls of the same names.
ghost use Rattle.std.specs.Prelude.{◌≡◌};
ghost use Rattle.model.specs.Tests.{bit};
ghost use Rattle.tables.specs.Calls.{ran_on, conducted, open_rack};
ghost use Rattle.tables.specs.Lent.{moments};
ghost use Rattle.coin.specs.Strip.{strip_filled};
ghost use Rattle.files.specs.Found.{is_opened, run_numbers};
ghost use Rattle.files.specs.Page.{page, print};
ghost use Rattle.files.specs.Reported.{whole, report as report_of};
ghost use Rattle.rushhopper.specs.Values.{value, numbers_in};

use crate::number_of;
use coin::fill_strip;
use conduct::{Conducted as Counts, conduct};
use files::Report;
use model::{Numbers, Plan, ReplicaId};
use opening::open;
use runs::run_on;
use session::play;
use tables::Memory;

// The numbers of the run that was opened; all 0 after a refusal.
#[repr(C)]
#[derive(Clone, Copy)]
pub struct Opened {
    pub refusal: usize,
    pub numbers: Numbers,
}

// How many advances were accepted; 0 after a refusal.
#[repr(C)]
#[derive(Clone, Copy)]
pub struct Ran {
    pub refusal: usize,
    pub advances: usize,
}

// How many steps were accepted besides relays, and how many relays; both 0 after a refusal.
#[repr(C)]
#[derive(Clone, Copy)]
pub struct Conducted {
    pub refusal: usize,
    pub steps: usize,
    pub relays: usize,
}

// How many bytes of the report are written, and whether (1) a run was opened, with its numbers, else all 0.
#[repr(C)]
#[derive(Clone, Copy)]
pub struct PlayedFile {
    pub written: usize,
    pub opened: usize,
    pub numbers: Numbers,
}

#[unsafe(no_mangle)]
pub extern "C" fn rushhopper_fill_strip(
    slots: usize,
    phases: usize,
    start: usize,
    strip: &mut [u8],
) -> usize
    ensures { let o = strip_filled slots phases start strip.old in
        (result ≡ o.number) × (strip.new ≡ o.strip) }
{
    number_of(&fill_strip(slots, phases, start, strip))
}

#[unsafe(no_mangle)]
pub extern "C" fn rushhopper_open(
    numbers: Numbers,
    start: usize,
    words: &mut [u16],
    orders: &mut [u64],
    ballots: &mut [u8],
    strip: &mut [u8],
) -> Opened
    ensures { let t = moments words orders ballots in
        let o = open_rack (record { numbers = numbers; start = start }) t.entry strip.old in
        (result.refusal ≡ o.number) × (result.numbers ≡ numbers_in o.values) × (t.exit ≡ o.tables) × (strip.new ≡ o.strip) }
{
    let mut memory = Memory {
        words,
        orders,
        ballots,
    };
    let opened = open(Plan { numbers, start }, &mut memory, strip);
    Opened {
        refusal: number_of(&opened),
        numbers: opened.unwrap_or_default(),
    }
}

#[unsafe(no_mangle)]
pub extern "C" fn rushhopper_run_on(
    numbers: Numbers,
    who: ReplicaId,
    words: &mut [u16],
    orders: &mut [u64],
    ballots: &mut [u8],
    strip: &[u8],
) -> Ran
    ensures { let t = moments words orders ballots in
        let o = ran_on numbers strip.now who t.entry in
        (result.refusal ≡ o.number) × (result.advances ≡ value 0 o.values) × (t.exit ≡ o.state) }
{
    let mut memory = Memory {
        words,
        orders,
        ballots,
    };
    let ran = run_on(numbers, who, &mut memory, strip);
    Ran {
        refusal: number_of(&ran),
        advances: ran.unwrap_or(0),
    }
}

#[unsafe(no_mangle)]
pub extern "C" fn rushhopper_conduct(
    numbers: Numbers,
    words: &mut [u16],
    orders: &mut [u64],
    ballots: &mut [u8],
    strip: &[u8],
) -> Conducted
    ensures { let t = moments words orders ballots in
        let o = conducted numbers strip.now t.entry in
        (result.refusal ≡ o.number) × (result.steps ≡ value 0 o.values) × (result.relays ≡ value 1 o.values) × (t.exit ≡ o.state) }
{
    let mut memory = Memory {
        words,
        orders,
        ballots,
    };
    let conducted = conduct(numbers, &mut memory, strip);
    let Counts { steps, relays } = conducted.unwrap_or_default();
    Conducted {
        refusal: number_of(&conducted),
        steps,
        relays,
    }
}

#[unsafe(no_mangle)]
pub extern "C" fn rushhopper_play(
    most: Numbers,
    file: &[u8],
    report: &mut [u8],
    words: &mut [u16],
    orders: &mut [u64],
    ballots: &mut [u8],
    strip: &mut [u8],
) -> PlayedFile
    ensures { let t = moments words orders ballots in
        let x = whole most file.now t.entry strip.old in
        (result.opened ≡ bit (is_opened x.player.opened)) × (result.numbers ≡ run_numbers x.player.opened) × (t.exit ≡ x.tables) × (strip.new ≡ x.strip)
        × (page report.new result.written
        ≡ print (page report.old 0) (report_of most file.now t.entry strip.old)) }
{
    let mut memory = Memory {
        words,
        orders,
        ballots,
    };
    let mut out = Report {
        bytes: report,
        written: 0,
    };
    let opened = play(most, file, &mut out, &mut memory, strip).player.opened;
    PlayedFile {
        written: out.written,
        opened: usize::from(opened.is_some()),
        numbers: opened.unwrap_or_default(),
    }
}

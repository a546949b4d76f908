// The rehearsal program: a step file from standard input is played, and its report written.
#![tactic(auto)]

ghost use Rattle.std.specs.Prelude.{◌≡◌, length, IfOk};
ghost use Rattle.io.specs.Counts.{IsPrefixLen};
ghost use Rattle.files.specs.Page.{page, print};
ghost use Rattle.files.specs.Rehearsal.{rehearsal};

use files::Report;
use model::Numbers;
use session::play;
use std::io;
use std::io::Read;
use tables::Memory;

// "With tables for 7 controllers, 16 slots, 8 phases and 64 tags; larger openings get refusal 2." Document 02: 16 phases.
fn rehearse(file: &[u8], bytes: &mut [u8]) -> usize
    ensures prefix_len { IsPrefixLen result bytes.new }
    ensures result_after { page bytes.new result ≡ print (page bytes.old 0) (rehearsal file.now) }
{
    let most = Numbers {
        n: 7,
        f: 3,
        slots: 16,
        phases: 16,
        room: 64,
    };
    let mut words = [0u16; 3915];
    let mut orders = [0u64; 288];
    let mut ballots = [0u8; 3584];
    let mut strip = [0u8; 256];
    let mut memory = Memory {
        words: &mut words,
        orders: &mut orders,
        ballots: &mut ballots,
    };
    let mut report = Report { bytes, written: 0 };
    play(most, file, &mut report, &mut memory, &mut strip);
    report.written
}

// As long as the longest report of 65,536 bytes of steps.
fn room() -> [u8; 1600000]
    ensures { 1600000 ≡ length result }
{
    [0; 1600000]
}

// Reads until the buffer is full or the input ends, and answers how many bytes stand at its front.
// By hand: `read_exact` fails where the input ends before the buffer is full, and `read_to_end` needs a heap.
fn read_full<R: Read>(input: &mut R, buffer: &mut [u8]) -> io::Result<usize>
    ensures { IfOk result (λ n. IsPrefixLen n buffer.new) }
{
    let mut done = 0;
    while done < buffer.len() {
        let count = input.read(&mut buffer[done..])?;
        if count == 0 {
            break;
        }
        done += count;
    }
    Ok(done)
}

// "It takes the first 65,536 bytes of its input and reads no more."
fn main(rt: HostRuntime) -> io::Result<()> {
    let mut input = [0u8; 65536];
    let count = read_full(&mut rt.stdin(), &mut input)?;
    let mut report = room();
    let written = rehearse(&input[..count], &mut report);
    rt.write_all(&report[..written])
}

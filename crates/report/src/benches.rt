// A line for each replica [bench], from its record and its log.
ghost use Rattle.std.specs.Prelude.{◌≡◌, not, ◌<◌, ◌≤◌, eqb, length};
ghost use Rattle.tables.specs.Layout.{words_need, orders_need};
ghost use Rattle.tables.specs.Bounds.{Bounds};
ghost use Rattle.tables.specs.View.{log_in};
ghost use Rattle.files.specs.Page.{shown, print, SameReport};
ghost use Rattle.files.specs.Lines.{entry_text, entries_text, light, bench_in, benches_in};

use crate::pieces::{put_decimal, put_text};
use cells::records::load;
use files::Report;
use layout::{has_row, log_place};
use model::Numbers;

fn entry_at(numbers: Numbers, c: usize, s: usize, orders: &[u64]) -> u64
    requires { (Bounds numbers) × (c < numbers.n) × (orders_need numbers ≤ length orders.now) }
    ensures { result ≡ log_in numbers orders.now c s }
{
    if has_row(numbers, s) {
        return orders[log_place(numbers, c, s)];
    }
    0
}

fn put_light(crashed: u16, report: &mut Report)
    ensures same { SameReport report.old report.new }
    ensures text { shown report.new ≡ print (shown report.old) (light (not (eqb crashed 0))) }
{
    if crashed == 0 {
        put_text(b" lit ", report);
    } else {
        put_text(b" dark ", report);
    }
}

fn put_entry(x: u64, report: &mut Report)
    ensures same { SameReport report.old report.new }
    ensures text { shown report.new ≡ print (shown report.old) (entry_text x) }
{
    if x == 0 {
        put_text(b" -", report);
    } else {
        put_text(b" ", report);
        put_decimal(x, report);
    }
}

fn put_entries(numbers: Numbers, c: usize, closed: usize, orders: &[u64], report: &mut Report)
    requires { (Bounds numbers) × (c < numbers.n) × (orders_need numbers ≤ length orders.now) }
    ensures same { SameReport report.old report.new }
    ensures text { shown report.new ≡ print (shown report.old) (entries_text closed (log_in numbers orders.now c)) }
{
    for s in 0..closed {
        put_entry(entry_at(numbers, c, s, orders), report);
    }
}

fn put_bench(numbers: Numbers, c: usize, words: &[u16], orders: &[u64], report: &mut Report)
    requires { (Bounds numbers) × (c < numbers.n) × (words_need numbers ≤ length words.now) × (orders_need numbers ≤ length orders.now) }
    ensures same { SameReport report.old report.new }
    ensures text { shown report.new ≡ print (shown report.old) (bench_in numbers words.now orders.now c) }
{
    let k = load(words, c);
    put_text(b"bench ", report);
    put_decimal(c as u64, report);
    put_light(k.crashed, report);
    put_decimal(k.slot as u64, report);
    put_entries(numbers, c, k.slot as usize, orders, report);
    put_text(b"\n", report);
}

pub fn put_benches(numbers: Numbers, words: &[u16], orders: &[u64], report: &mut Report)
    requires { (Bounds numbers) × (words_need numbers ≤ length words.now) × (orders_need numbers ≤ length orders.now) }
    ensures same { SameReport report.old report.new }
    ensures text { shown report.new ≡ print (shown report.old) (benches_in numbers words.now orders.now numbers.n) }
{
    for c in 0..numbers.n {
        put_bench(numbers, c, words, orders, report);
    }
}

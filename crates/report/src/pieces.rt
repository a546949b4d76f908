// Bytes, texts and numbers. What the buffer has no room for is left out.
ghost use Rattle.std.specs.Prelude.{◌≡◌, ◌+◌, ◌<◌, ◌≤◌};
ghost use Rattle.files.specs.Text.{digits, decimal};
ghost use Rattle.files.specs.Page.{shown, put_byte, print, SameReport};

use files::Report;

pub fn put(byte: u8, report: &mut Report)
    ensures same { SameReport report.old report.new }
    ensures text { shown report.new ≡ put_byte (shown report.old) byte }
{
    if report.written < report.bytes.len() {
        report.bytes[report.written] = byte;
        report.written += 1;
    }
}

pub fn put_text(word: &[u8], report: &mut Report)
    ensures same { SameReport report.old report.new }
    ensures text { shown report.new ≡ print (shown report.old) word.now }
{
    for &byte in word {
        put(byte, report);
    }
}

// The highest digit first.
fn put_digits(left: usize, n: u64, report: &mut Report)
    requires { left ≤ 20 }
    ensures same { SameReport report.old report.new }
    ensures text { shown report.new ≡ print (shown report.old) (digits left n) }
{
    if left == 0 {
        return;
    }
    if 10 <= n {
        put_digits(left - 1, n / 10, report);
    }
    put(b'0' + (n % 10) as u8, report);
}

// No `Display`: `write!` promises its bytes for a String alone, which needs a heap, and each byte is promised here.
pub fn put_decimal(n: u64, report: &mut Report)
    ensures same { SameReport report.old report.new }
    ensures text { shown report.new ≡ print (shown report.old) (decimal n) }
{
    put_digits(20, n, report);
}

// The lines of what records were answered.
ghost use Rattle.std.specs.Prelude.{◌≡◌};
ghost use Rattle.files.specs.Page.{shown, print, SameReport};
ghost use Rattle.files.specs.Lines.{opened_line, refused_line};

use crate::pieces::{put_decimal, put_text};
use files::Report;
use model::{Numbers, Refusal};

pub fn put_opened(numbers: Numbers, report: &mut Report)
    ensures same { SameReport report.old report.new }
    ensures text { shown report.new ≡ print (shown report.old) (opened_line numbers) }
{
    put_text(b"controllers ", report);
    put_decimal(numbers.n as u64, report);
    put_text(b" spare ", report);
    put_decimal(numbers.f as u64, report);
    put_text(b"\n", report);
}

pub fn put_refused(k: usize, why: Refusal, report: &mut Report)
    ensures same { SameReport report.old report.new }
    ensures text { shown report.new ≡ print (shown report.old) (refused_line k why) }
{
    put_text(b"refused ", report);
    put_decimal(k as u64, report);
    put_text(b" ", report);
    put_decimal(usize::from(why) as u64, report);
    put_text(b"\n", report);
}

// The reader of step files. The calls of the library are `next_record`, on the struct that keeps the file and its place, and
// `read_at`, on a file and a place; `file_record` of the crate format does their work.
#![tactic(auto)]

ghost use Rattle.std.specs.Prelude.{◌≡◌};
ghost use Rattle.files.specs.Format.{file_record};
ghost use Rattle.files.specs.Numbered.{found_number, found_values, record_number, record_values};

use files::{Found, Read};
use format::file_record;

// "The reader keeps the lent step file and its place in it."
#[derive(Clone, Copy)]
pub struct Reader<'a> {
    pub file: &'a [u8],
    pub at: usize,
}

// Reads a record and moves on. After refusal 19 or 20, and at the end, the place stays: a further read finds the same.
pub fn next_record(reader: &mut Reader) -> Found
    ensures { let l = reader.old.file.now in
        let at = reader.old.at in
        let read = file_record l at in
        (result ≡ read.found) × (found_number result ≡ record_number l at) × (found_values result ≡ record_values l at)
        × (reader.new.file ≡ reader.old.file) × (reader.new.at ≡ read.next) }
{
    let read = file_record(reader.file, reader.at);
    reader.at = read.next;
    read.found
}

// One read at a place of a file, by a reader that is made there: callers with a slice and a number use this.
pub fn read_at(file: &[u8], at: usize) -> Read
    ensures { let bytes = file.now in
        (result ≡ file_record bytes at) × (found_number result.found ≡ record_number bytes at) × (found_values result.found ≡ record_values bytes at) }
{
    let mut reader = Reader { file, at };
    let found = next_record(&mut reader);
    Read {
        found,
        next: reader.at,
    }
}

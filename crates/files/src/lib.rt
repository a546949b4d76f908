// Step files: what stands at a place of one, and where whoever plays it stands. The definitions and theorems are in specs/ and proofs/; the code
// is in format (a record is read), reader, player (it is played), report and session (a whole file).
#![tactic(auto)]

use model::{Answer, Call, Numbers, Refusal};

// The call of a record, none at the end of the file; refusal 19 or 20.
pub type Found = Result<Option<Call>, Refusal>;

#[derive(Clone, Copy)]
pub struct Read {
    pub found: Found,
    pub next: usize,
}

// Where the player stands: its place in the step file, and the numbers of the run, once one was opened.
#[derive(Clone, Copy)]
pub struct Player {
    pub at: usize,
    pub opened: Option<Numbers>,
}

// The answer to a record, none where the file has ended; reading stops with refusal 19 or 20.
pub type Said = Result<Option<Answer>, Refusal>;

#[derive(Clone, Copy)]
pub struct Played {
    pub said: Said,
    pub player: Player,
}

// The lent buffer of a report, and how many bytes of it are written.
#[derive(Drop)]
pub struct Report<'a> {
    pub bytes: &'a mut [u8],
    pub written: usize,
}

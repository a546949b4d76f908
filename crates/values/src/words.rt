// What a word says.
ghost use Rattle.std.specs.Prelude.{◌≡◌};
ghost use Rattle.model.specs.Rack.{is, is_sent, tag_of};

use model::Word;

#[inline(always)]
pub fn is_sent(word: Word) -> bool
    ensures { result ≡ is_sent word }
{
    word != Word::Unsent
}

#[inline(always)]
pub fn tag_of(word: Word) -> u64
    ensures { result ≡ tag_of word }
{
    match word {
        Word::Tag(tag) => tag,
        _ => 0,
    }
}

// Whether the second word is the first.
#[inline(always)]
pub fn is(other: Word, word: Word) -> bool
    ensures { result ≡ is other word }
{
    word == other
}

// How many messages a replica has heard, and how many of them say a word. Inner code: no calls of the library.
#![tactic(auto)]

ghost use Rattle.std.specs.Prelude.{◌≡◌, ◌<◌, ◌≤◌};
ghost use Rattle.model.specs.declared.Sort.TheVariants.{Proposals};
ghost use Rattle.model.specs.declared.Word.TheVariants.{Tag};
ghost use Rattle.model.specs.Limits.{most_replicas};
ghost use Rattle.model.specs.Rules.{seen, tally, majority_tag};
ghost use Rattle.tables.specs.Lent.{read};
ghost use Rattle.tallies.specs.Heard.{InPhase, heard_by};
ghost use Rattle.tallies.specs.Counts.{Counted, backed, Leading};

use messages::words::heard_word;
use model::{Numbers, Sort, Word};
use tables::{Address, MemoryRef};
use values::words::{is, is_sent, tag_of};

// Of the messages heard: all, those that say 0, those that say 1.
#[derive(Clone, Copy)]
pub struct Count {
    pub all: usize,
    pub zeros: usize,
    pub ones: usize,
}

// The tag that leads so far, and by how many.
#[derive(Clone, Copy)]
struct Lead {
    tag: u64,
    by: usize,
}

// What was heard of a sender.
#[inline(always)]
fn heard(
    numbers: Numbers,
    who: usize,
    sort: Sort,
    slot: usize,
    phase: usize,
    sender: usize,
    memory: MemoryRef,
) -> Word
    requires { (InPhase numbers who sort slot phase (read memory)) × (sender < numbers.n) }
    ensures { result ≡ seen (heard_by numbers who slot phase (read memory.entry)) sort phase sender }
{
    let at = Address {
        sort,
        slot,
        phase,
        sender,
    };
    heard_word(numbers, who, at, memory)
}

// All three are counted in one pass.
#[tactic(auto, using(crate::proofs::CountLaws::counting))]
pub fn count_heard(
    numbers: Numbers,
    who: usize,
    sort: Sort,
    slot: usize,
    phase: usize,
    memory: MemoryRef,
) -> Count
    requires { InPhase numbers who sort slot phase (read memory) }
    ensures { Counted numbers (heard_by numbers who slot phase (read memory.entry)) sort phase result }
{
    let mut count = Count {
        all: 0,
        zeros: 0,
        ones: 0,
    };
    for sender in 0..numbers.n {
        let word = heard(numbers, who, sort, slot, phase, sender, memory);
        count.all += usize::from(is_sent(word));
        count.zeros += usize::from(is(Word::Say(false), word));
        count.ones += usize::from(is(Word::Say(true), word));
    }
    count
}

// How many propose the tag.
fn tag_tally(numbers: Numbers, who: usize, slot: usize, tag: u64, memory: MemoryRef) -> usize
    requires { InPhase numbers who Proposals slot 0 (read memory) }
    ensures { result ≡ tally numbers (heard_by numbers who slot 0 (read memory.entry)) Proposals 0 (Tag tag) }
{
    (0..numbers.n)
        .filter(|sender| {
            let word = heard(numbers, who, Sort::Proposals, slot, 0, *sender, memory);
            is(Word::Tag(tag), word)
        })
        .count()
}

// A tag against the leading one.
#[tactic(auto, using(model::proofs::Branches::picks), unfolding(crate::specs::Counts::backed))]
#[inline(always)]
fn back(lead: Lead, x: u64) -> Lead
    requires { lead.by ≤ most_replicas }
    ensures { result ≡ backed lead x }
{
    if lead.by == 0 {
        Lead { tag: x, by: 1 }
    } else if x == lead.tag {
        Lead {
            by: lead.by + 1,
            ..lead
        }
    } else {
        Lead {
            by: lead.by - 1,
            ..lead
        }
    }
}

// The only tag that can have a majority. Each sender that backs the leading tag is set off against one that doesn't (the
// majority vote of Boyer and Moore), so that no tag is counted for each sender.
fn leading_tag(numbers: Numbers, who: usize, slot: usize, memory: MemoryRef) -> u64
    requires { InPhase numbers who Proposals slot 0 (read memory) }
    ensures { Leading numbers (heard_by numbers who slot 0 (read memory.entry)) result }
{
    let mut lead = Lead { tag: 0, by: 0 };
    for sender in 0..numbers.n {
        let word = heard(numbers, who, Sort::Proposals, slot, 0, sender, memory);
        lead = back(lead, tag_of(word));
    }
    lead.tag
}

// The tag that has a majority among the proposals heard, 0 if none has: "Tag 0 is no order".
pub fn majority_tag(numbers: Numbers, who: usize, slot: usize, memory: MemoryRef) -> u64
    requires { InPhase numbers who Proposals slot 0 (read memory) }
    ensures { result ≡ majority_tag numbers (heard_by numbers who slot 0 (read memory.entry)) }
{
    let tag = leading_tag(numbers, who, slot, memory);
    if numbers.n / 2 + 1 <= tag_tally(numbers, who, slot, tag, memory) {
        tag
    } else {
        0
    }
}

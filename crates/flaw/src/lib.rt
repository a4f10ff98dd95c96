// What is told of a block that is not what it must be: of all that was seen of it, the first flaw, and that flaw's number, block and
// offset. No function asks anything of its caller: each answers every input by an equation of specs/Flaws.antt.
#![tactic(auto)]

ghost use Rattle.std.specs.Prelude.{◌≡◌};
ghost use Rattle.flaw.specs.Flaws.{must, first_flaw, number_of, offset_of, told};

use table::Told;

// What is wrong with a block, in the order in which it is told. Over the variants stands the number of theirs, and the offset told.
#[derive(Clone, Copy, PartialEq, Eq)]
pub enum Flaw {
    // 12 | block check wrong | no offset
    Check,
    // 20 | kind or block order wrong | 0
    Kind,
    // A kind that may stand in a file, but not after the block before.
    Order,
    // 21 | byte 1 or number wrong | 1, else 2
    ByteOne,
    Number,
    // 22 | used count wrong | 4
    Used,
    // 23 | source or zero fill wrong | 11, else the first byte that should be zero
    Source,
    // The offset of the first byte that should be zero and is not.
    Fill(usize),
}

// What was seen of a block: of each part, whether it is as it must be; `one` is byte 1.
#[derive(Clone, Copy)]
pub struct Seen {
    pub check: bool,
    pub kind: bool,
    pub order: bool,
    pub one: bool,
    pub number: bool,
    pub used: bool,
    pub source: bool,
    // The offset of the first byte after the used count that is not zero, if there is one.
    pub fill: Option<usize>,
}

// Refuses where a test fails.
fn must(ok: bool, flaw: Flaw) -> Result<(), Flaw>
    ensures { result ≡ must ok flaw }
{
    if ok { Ok(()) } else { Err(flaw) }
}

// The first flaw: 12, then 20, 21, 22, 23.
#[tactic(auto, unfolding(crate::specs::Flaws::first_flaw))]
pub fn first(seen: Seen) -> Result<(), Flaw>
    ensures { result ≡ first_flaw seen }
{
    must(seen.check, Flaw::Check)?;
    must(seen.kind, Flaw::Kind)?;
    must(seen.order, Flaw::Order)?;
    must(seen.one, Flaw::ByteOne)?;
    must(seen.number, Flaw::Number)?;
    must(seen.used, Flaw::Used)?;
    must(seen.source, Flaw::Source)?;
    match seen.fill {
        Some(offset) => Err(Flaw::Fill(offset)),
        None => Ok(()),
    }
}

fn number(flaw: Flaw) -> u8
    ensures { result ≡ number_of flaw }
{
    match flaw {
        Flaw::Check => 12,
        Flaw::Kind | Flaw::Order => 20,
        Flaw::ByteOne | Flaw::Number => 21,
        Flaw::Used => 22,
        Flaw::Source | Flaw::Fill(_) => 23,
    }
}

// Where in the block to look. Of a check there is no such place.
fn offset(flaw: Flaw) -> usize
    ensures { result ≡ offset_of flaw }
{
    match flaw {
        Flaw::Check | Flaw::Kind | Flaw::Order => 0,
        Flaw::ByteOne => 1,
        Flaw::Number => 2,
        Flaw::Used => 4,
        Flaw::Source => 11,
        Flaw::Fill(i) => i,
    }
}

// The number, the block and the offset of a flaw.
#[tactic(auto, unfolding(crate::specs::Flaws::told))]
pub fn tell(flaw: Flaw, block: usize) -> Told
    ensures { result ≡ told flaw block }
{
    Told {
        number: number(flaw),
        place: block,
        second: offset(flaw),
    }
}

// The answers of this crate, and the number and places of document 01 for each refusal.
ghost use Rattle.std.specs.Prelude.{◌≡◌};
ghost use Rattle.house.specs.File.{source_of, source_byte};
ghost use Rattle.house.specs.Refusals.{told};
ghost use Rattle.house.specs.declared.answer.Refusal.TheVariants.{Content};

use flaw::Flaw;
use table::{Tell, Told};

// Why a file is turned away. Over each variant stands its row of document 01's table; what the variant holds is the place told.
#[derive(Clone, Copy, PartialEq, Eq)]
pub enum Refusal {
    // 11 | file empty, not whole blocks, or over 7,680 bytes | length
    Length(usize),
    // 12 | block check wrong | block
    // 20 to 23 | another part of a block is wrong: which one, its flaw says | block, then offset in it
    Block(Flaw, usize),
    // 14 | source 1 and counts not 64, 16, 16 | 0
    Standard,
    // 1 to 7, 9 and 10, as everywhere
    Content(table::Refusal),
}

// Where the table comes from: rows in the file, or the standard box.
#[derive(Clone, Copy, PartialEq, Eq)]
pub enum Source {
    Rows,
    Standard,
}

// What a file holds: the table's counts, the bounds B and c, the source, and how many bytes of rows and events there are.
#[derive(Clone, Copy, PartialEq, Eq)]
pub struct Contents {
    pub states: u8,
    pub inputs: u8,
    pub outputs: u8,
    pub waiting: u8,
    pub losses: u8,
    pub source: Source,
    pub rows: usize,
    pub events: usize,
}

// The number of a source, in a file and elsewhere: 0 means that rows follow. Any other number is taken for 1, the standard box.
impl From<usize> for Source {
    ghost from_gives = { λ number source. source ≡ source_of number };

    fn from(number: usize) -> Source {
        match number {
            0 => Source::Rows,
            _ => Source::Standard,
        }
    }
}

impl From<Source> for u8 {
    ghost from_gives = { λ source byte. byte ≡ source_byte source };

    fn from(source: Source) -> u8 {
        match source {
            Source::Rows => 0,
            Source::Standard => 1,
        }
    }
}

impl From<table::Refusal> for Refusal {
    ghost from_gives = { λ content refusal. refusal ≡ Content content };

    fn from(content: table::Refusal) -> Refusal {
        Refusal::Content(content)
    }
}

impl Tell for Refusal {
    ghost tells = { told };

    #[tactic(auto, unfolding(crate::specs::Refusals::told))]
    fn tell(self) -> Told {
        match self {
            Refusal::Length(length) => Told {
                number: 11,
                place: length,
                second: 0,
            },
            Refusal::Block(flaw, block) => flaw::tell(flaw, block),
            Refusal::Standard => Told {
                number: 14,
                place: 0,
                second: 0,
            },
            Refusal::Content(refusal) => refusal.tell(),
        }
    }
}

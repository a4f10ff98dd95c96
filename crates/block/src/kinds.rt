// The kinds of blocks, and their numbers.
ghost use Rattle.std.specs.Prelude.{◌≡◌};
ghost use Rattle.block.specs.Block.{kind_number};

// What a block holds: block 0 the setup, those after it rows, then events.
#[derive(Clone, Copy, PartialEq, Eq)]
pub enum Kind {
    Setup,
    Rows,
    Events,
}

// The kind's number, byte 0 of a block.
impl From<Kind> for u8 {
    ghost from_gives = { λ kind number. number ≡ kind_number kind };

    fn from(kind: Kind) -> u8 {
        match kind {
            Kind::Setup => 1,
            Kind::Rows => 2,
            Kind::Events => 3,
        }
    }
}

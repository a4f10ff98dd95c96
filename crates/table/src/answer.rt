// The answers of this crate, and the number and places of document 01 for each refusal.
ghost use Rattle.std.specs.Prelude.{◌≡◌};
ghost use Rattle.table.specs.declared.answer.Told.{Told};
ghost use Rattle.table.specs.Refusals.{told_at, told, told_by};

// Why something is turned away. Over each variant stands its row of document 01's table; what the variant holds is the place told.
#[derive(Clone, Copy, PartialEq, Eq)]
pub enum Refusal {
    // 1 | rows are not states × (inputs + outputs) bytes; with source 1, rows are present | the length
    Rows(usize),
    // 2 | states not 1..64 | the count
    States(usize),
    // 3 | inputs or outputs not 1..16 | the first wrong count
    Symbols(usize),
    // 4 | an entry is neither 255 nor below states | the first row and column, reading row by row
    Entry(usize, usize),
    // 5 | B not 1..32 | B
    Waiting(usize),
    // 6 | c not 1..8 | c
    Losses(usize),
    // 7 | event byte not valid | event index
    Event(usize),
    // 8 | session not sound | 0
    Unsound,
    // 9 | events past the limit (session or run 1,048,576; file 4,096) | the count
    Events(usize),
    // 10 | run: result buffer shorter than 12 × events; reader: row or event buffer too short | needed length, rows first
    Buffer(usize),
}

// A refusal in document 01's figures. A place that is not used is 0; of the numbers given here only 4 has a second.
#[derive(Clone, Copy, PartialEq, Eq)]
pub struct Told {
    pub number: u8,
    pub place: usize,
    pub second: usize,
}

// What a valid event byte stands for: a symbol of one direction.
#[derive(Clone, Copy, PartialEq, Eq)]
pub enum Symbol {
    Input(u8),
    Output(u8),
}

impl Told {
    // What is told where nothing is refused: number 0, and places 0.
    pub const NOTHING: Told = Told {
        number: 0,
        place: 0,
        second: 0,
    };

    // What an answer tells: nothing, unless it is a refusal.
    pub fn of<T: Copy, R: Tell + Copy>(answer: Result<T, R>) -> Told
        ensures { result ≡ told_by R.tells answer }
    {
        match answer {
            Ok(_) => Told::NOTHING,
            Err(refusal) => refusal.tell(),
        }
    }
}

// A number with its one place.
fn at(number: u8, place: usize) -> Told
    ensures { result ≡ told_at number place }
{
    Told {
        number,
        place,
        second: 0,
    }
}

// What tells a number of document 01's table, with its places.
pub trait Tell {
    ghost tells: { Self → Told };

    fn tell(self) -> Told
        ensures { result ≡ tells self };
}

impl Tell for Refusal {
    ghost tells = { told };

    #[tactic(auto, unfolding(crate::specs::Refusals::told))]
    fn tell(self) -> Told {
        match self {
            Refusal::Rows(length) => at(1, length),
            Refusal::States(count) => at(2, count),
            Refusal::Symbols(count) => at(3, count),
            Refusal::Entry(row, column) => Told {
                number: 4,
                place: row,
                second: column,
            },
            Refusal::Waiting(bound) => at(5, bound),
            Refusal::Losses(bound) => at(6, bound),
            Refusal::Event(index) => at(7, index),
            Refusal::Unsound => at(8, 0),
            Refusal::Events(count) => at(9, count),
            Refusal::Buffer(needed) => at(10, needed),
        }
    }
}

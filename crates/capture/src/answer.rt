// The answers of this crate, and the number and place of each refusal.
ghost use Rattle.capture.specs.Refusals.{told};

use table::{Tell, Told};

// Why a capture is turned away. Over each variant stands when it is given, with the place told.
#[derive(Clone, Copy, PartialEq, Eq)]
pub enum Refusal {
    // 15 | header short or wrong | 0
    Header,
    // 16 | a record short or with another length | record index
    Record(usize),
    // 9 | above 1,048,576 records | in the reader the index plus one, in an import the number of records
    Events(usize),
    // 7 | an octet that is no event of the public layout | record index
    Event(usize),
    // 10 | the buffer is shorter than one byte a record | the length needed
    Buffer(usize),
}

// What the reader hands out, an event byte or that there is none left, or why it hands out nothing, with the reader's place after it.
#[derive(Clone, Copy)]
pub struct Handed {
    pub taken: Result<Option<u8>, Refusal>,
    pub place: usize,
}

impl Tell for Refusal {
    ghost tells = { told };

    #[tactic(auto, unfolding(crate::specs::Refusals::told))]
    fn tell(self) -> Told {
        let (number, place) = match self {
            Refusal::Header => (15, 0),
            Refusal::Record(index) => (16, index),
            Refusal::Events(count) => (9, count),
            Refusal::Event(index) => (7, index),
            Refusal::Buffer(needed) => (10, needed),
        };
        Told {
            number,
            place,
            second: 0,
        }
    }
}

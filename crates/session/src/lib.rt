// Sessions: what one carries, how it is opened, and whether any session whatever is sound.
#![tactic(auto)]

ghost use Rattle.std.specs.Prelude.{◌≡◌, Ok};
ghost use Rattle.session.specs.Open.{zero_session, padded, begun, opening, opened};

use table::{Refusal, Rules};

pub mod sound;

// A session or a run has at most 1,048,576 events.
pub const MOST_EVENTS: usize = 1048576;

// A session carries its table, bounds, plausible set, newest inputs, counts of events and inputs, and the place of the first
// flagged event, if any. The words stand before the bytes, so that no two fields have a gap between them: with one the compiler takes a
// copy of the set for something else than the set, and keeps it on the stack.
#[derive(Clone, Copy, PartialEq, Eq)]
pub struct Session {
    // A word for each waiting count and run: that of waiting w and run r at 8 w + r, bit s for state s.
    pub set: [u64; 264],
    // Events seen, and inputs among them.
    pub events: usize,
    pub arrived: usize,
    // The place of the first flagged event, if any.
    pub flag: Option<usize>,
    // The table's rows, packed one after another, zeros after.
    pub rows: [u8; 2048],
    // The newest inputs, B of them or all seen if fewer, oldest first, zeros after.
    pub held: [u8; 32],
    // The table's counts.
    pub states: u8,
    pub inputs: u8,
    pub outputs: u8,
    // The bounds, B and c.
    pub waiting: u8,
    pub losses: u8,
}

// How an opening ends, and the session: of zeros only, where it was refused.
#[derive(Clone, Copy, PartialEq, Eq)]
pub struct Opened {
    pub test: Result<(), Refusal>,
    pub session: Session,
}

// The rows, with zeros after them; what does not fit is left out.
fn copied(rows: &[u8]) -> [u8; 2048]
    ensures { result ≡ padded 2048 rows.now }
{
    let mut copied = [0u8; 2048];
    // By number: of a part of a local array the check does not know the length that `copy_from_slice` asks for.
    for i in 0..rows.len().min(2048) {
        copied[i] = rows[i];
    }
    copied
}

impl Session {
    // A session of zeros only.
    #[tactic(auto, unfolding(crate::specs::Open::zero_session, crate::specs::Open::zeros))]
    fn zeros() -> Session
        ensures { result ≡ zero_session }
    {
        Session {
            states: 0,
            inputs: 0,
            outputs: 0,
            rows: [0u8; 2048],
            waiting: 0,
            losses: 0,
            set: [0u64; 264],
            held: [0u8; 32],
            events: 0,
            arrived: 0,
            flag: None,
        }
    }

    // A session by rules that pass the tests of an opening: with their table and bounds, and the one configuration (0,0,0). It is made of its
    // parts at once: one of zeros that is filled afterwards stands whole on the stack, rows and all.
    #[tactic(auto, using(crate::proofs::Openings::small_opening, crate::proofs::Openings::few_rows), unfolding(crate::specs::Open::begun, crate::specs::Open::zeros))]
    fn begun(rules: &Rules) -> Session
        requires passed { opening rules.now.rows.now rules.now.states rules.now.inputs rules.now.outputs rules.now.waiting rules.now.losses ≡ Ok tt }
        ensures { result ≡ begun rules.now.rows.now rules.now.states rules.now.inputs rules.now.outputs rules.now.waiting rules.now.losses }
    {
        let rows = copied(rules.rows);
        let mut set = [0u64; 264];
        set[0] = 1;
        Session {
            states: rules.states as u8,
            inputs: rules.inputs as u8,
            outputs: rules.outputs as u8,
            rows,
            waiting: rules.waiting as u8,
            losses: rules.losses as u8,
            set,
            held: [0u8; 32],
            events: 0,
            arrived: 0,
            flag: None,
        }
    }
}

// The tests of an opening, which a run makes too: 2, 3, 1, 4, 5, 6.
#[tactic(auto, using(crate::proofs::Openings::small_counts), unfolding(crate::specs::Open::opening))]
pub fn tested(rules: &Rules) -> Result<(), Refusal>
    ensures { result ≡ opening rules.now.rows.now rules.now.states rules.now.inputs rules.now.outputs rules.now.waiting rules.now.losses }
{
    table::counts(rules.states, rules.inputs, rules.outputs)?;
    let states = rules.states as u8;
    let inputs = rules.inputs as u8;
    let outputs = rules.outputs as u8;
    table::length(rules.rows.len(), states, inputs, outputs)?;
    table::entries(rules.rows, states, inputs, outputs)?;
    table::bounds(rules.waiting, rules.losses)
}

// A session of this table and these bounds, of which nothing need be known.
#[tactic(auto, unfolding(crate::specs::Open::opened))]
pub fn open(rules: &Rules) -> Opened
    ensures { result ≡ opened rules.now.rows.now rules.now.states rules.now.inputs rules.now.outputs rules.now.waiting rules.now.losses }
{
    match tested(rules) {
        Ok(()) => Opened {
            test: Ok(()),
            session: Session::begun(rules),
        },
        Err(r) => Opened {
            test: Err(r),
            session: Session::zeros(),
        },
    }
}

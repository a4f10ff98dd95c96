// The tests of a table and its bounds that opening, running and reading share, and what the bytes of a trace and of a row say.
// No function asks anything of its caller: each answers every input, by an equation of specs/.
#![tactic(auto)]

ghost use Rattle.std.specs.Prelude.{◌≡◌};
ghost use Rattle.table.specs.Bytes.{table_of};
ghost use Rattle.table.specs.Tests.{must, up_to, counts_test, length_test, entries_test, bounds_test, events_test};

pub mod answer;
mod byte;
mod rules;

pub use answer::{Refusal, Symbol, Tell, Told};
pub use byte::{event, next};
pub use rules::Rules;

// The limits of document 01. The contracts hold each to the model's limit of the same name.
pub const MOST_STATES: usize = 64;

pub const MOST_INPUTS: usize = 16;

pub const MOST_OUTPUTS: usize = 16;

pub const MOST_WAITING: usize = 32;

pub const MOST_LOSSES: usize = 8;

// The test that n is 1 to most.
fn within(n: usize, most: usize, refusal: Refusal) -> Result<(), Refusal>
    ensures { result ≡ must (up_to most n) refusal (Ok tt) }
{
    if (1..=most).contains(&n) {
        Ok(())
    } else {
        Err(refusal)
    }
}

// Numbers 2 and 3. Of two wrong counts of symbols the inputs' is told.
#[tactic(auto, unfolding(crate::specs::Tests::counts_test))]
pub fn counts(states: usize, inputs: usize, outputs: usize) -> Result<(), Refusal>
    ensures { result ≡ counts_test states inputs outputs }
{
    within(states, MOST_STATES, Refusal::States(states))?;
    within(inputs, MOST_INPUTS, Refusal::Symbols(inputs))?;
    within(outputs, MOST_OUTPUTS, Refusal::Symbols(outputs))
}

// Number 1, of rows that are len bytes long. The counts are parameters of their own, here and below: callers have them in structs of their
// own, as usize before `counts` has passed and as u8 after.
#[tactic(auto, unfolding(crate::specs::Tests::length_test))]
pub fn length(len: usize, states: u8, inputs: u8, outputs: u8) -> Result<(), Refusal>
    ensures { result ≡ length_test len states inputs outputs }
{
    if len == byte::span(states, inputs, outputs) {
        Ok(())
    } else {
        Err(Refusal::Rows(len))
    }
}

// Number 4. Rows that are too short are no fault here: past their end nothing is a next state.
#[tactic(auto, using(crate::proofs::Reading::none_bad), unfolding(crate::specs::First::first))]
pub fn entries(rows: &[u8], states: u8, inputs: u8, outputs: u8) -> Result<(), Refusal>
    ensures { result ≡ entries_test (table_of rows.now states inputs outputs) }
{
    let width = u16::from(inputs) + u16::from(outputs);
    let mut found = Ok(());
    'rows: for row in 0..states {
        for column in 0..width {
            if byte::leads_out(next(rows, inputs, outputs, row, column), states) {
                found = Err(Refusal::Entry(usize::from(row), usize::from(column)));
                break 'rows;
            }
        }
    }
    found
}

// Numbers 5 and 6, of B and c. Where both are wrong, B is told.
#[tactic(auto, unfolding(crate::specs::Tests::bounds_test))]
pub fn bounds(waiting: usize, losses: usize) -> Result<(), Refusal>
    ensures { result ≡ bounds_test waiting losses }
{
    within(waiting, MOST_WAITING, Refusal::Waiting(waiting))?;
    within(losses, MOST_LOSSES, Refusal::Losses(losses))
}

// Number 7: the first event of a trace that is not valid.
#[tactic(auto, using(crate::proofs::First::none_more, crate::proofs::First::found), unfolding(crate::specs::Tests::events_test, crate::specs::First::first))]
pub fn events(trace: &[u8], inputs: u8, outputs: u8) -> Result<(), Refusal>
    ensures { result ≡ events_test trace.now inputs outputs }
{
    for (index, byte) in trace.iter().enumerate() {
        if event(*byte, inputs, outputs).is_none() {
            return Err(Refusal::Event(index));
        }
    }
    Ok(())
}

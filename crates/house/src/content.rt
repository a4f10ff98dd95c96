// What a file of good blocks holds, and the tests of it.
ghost use Rattle.std.specs.Prelude.{◌≡◌, [], ◌∷◌, ◌≤◌, eqb, leb, length, Ok};
ghost use Rattle.table.specs.Bytes.{table_of};
ghost use Rattle.table.specs.Tests.{counts_test, length_test, entries_test, bounds_test};
ghost use Rattle.table.specs.declared.answer.Refusal.TheVariants as table_refusal;
ghost use Rattle.house.specs.Limits.{most_rows, most_events};
ghost use Rattle.house.specs.Verdicts.{must, of_table, first_of};
ghost use Rattle.house.specs.declared.answer.Refusal.TheVariants as refusal;
ghost use Rattle.house.specs.File.{rows_of, events_of, source_of, contents_of};
ghost use Rattle.house.specs.Reading.{is_standard, states_held, shape_test, rows_test, limits_test, events_test, held_test, room_test, content_test, given, form_test, verdict, answer};

use super::answer::{Contents, Refusal, Source};
use super::file;
use block::{Kind, PAYLOAD_AT, byte};
use table::Rules;

pub const MOST_EVENTS: usize = 4096;

// The rows of the largest table.
pub const MOST_ROWS: usize = table::MOST_STATES * (table::MOST_INPUTS + table::MOST_OUTPUTS);

// The standard box's counts, as number 14 has them. The crate `standard`, which holds its rows, is not below this one; that they are the
// limits of a table as well is chance.
const STANDARD_STATES: u8 = 64;

const STANDARD_INPUTS: u8 = 16;

const STANDARD_OUTPUTS: u8 = 16;

// What the file says it holds. Block 0 starts the file.
#[tactic(auto, unfolding(crate::specs::File::contents_of))]
fn contents(file: &[u8]) -> Contents
    ensures { result ≡ contents_of file.now }
{
    Contents {
        states: byte(file, PAYLOAD_AT),
        inputs: byte(file, PAYLOAD_AT + 1),
        outputs: byte(file, PAYLOAD_AT + 2),
        waiting: byte(file, PAYLOAD_AT + 3),
        losses: byte(file, PAYLOAD_AT + 4),
        source: Source::from(usize::from(byte(file, PAYLOAD_AT + 5))),
        rows: file::measure(file, Kind::Rows),
        events: file::measure(file, Kind::Events),
    }
}

// Where a file's table comes from, and its counts.
#[derive(Clone, Copy)]
struct Shape {
    source: Source,
    states: u8,
    inputs: u8,
    outputs: u8,
}

impl Shape {
    // Numbers 2 and 3.
    fn counted(self) -> Result<(), Refusal>
        ensures { result ≡ of_table (counts_test self.states self.inputs self.outputs) }
    {
        table::counts(
            usize::from(self.states),
            usize::from(self.inputs),
            usize::from(self.outputs),
        )?;
        Ok(())
    }

    // Number 14.
    fn is_standard(self) -> bool
        ensures { result ≡ is_standard self.source self.states self.inputs self.outputs }
    {
        match self.source {
            Source::Rows => true,
            Source::Standard => {
                self.states == STANDARD_STATES
                    && self.inputs == STANDARD_INPUTS
                    && self.outputs == STANDARD_OUTPUTS
            }
        }
    }

    // How many states have their rows in the file. With the standard box none has: rows are then number 1, and number 4 has no entry to test.
    fn states_held(self) -> u8
        ensures { result ≡ states_held self.source self.states }
    {
        match self.source {
            Source::Rows => self.states,
            Source::Standard => 0,
        }
    }

    // Numbers 14 and 1, of counts that pass.
    fn sized(self, rows: usize) -> Result<(), Refusal>
        ensures { result ≡ first_of (must (is_standard self.source self.states self.inputs self.outputs) refusal.Standard ∷ of_table (length_test rows (states_held self.source self.states) self.inputs self.outputs) ∷ []) }
    {
        if !self.is_standard() {
            return Err(Refusal::Standard);
        }
        table::length(rows, self.states_held(), self.inputs, self.outputs)?;
        Ok(())
    }

    // Number 4.
    fn entries(self, rows: &[u8]) -> Result<(), Refusal>
        ensures { result ≡ of_table (entries_test (table_of rows.now (states_held self.source self.states) self.inputs self.outputs)) }
    {
        table::entries(rows, self.states_held(), self.inputs, self.outputs)?;
        Ok(())
    }
}

impl Contents {
    fn shape(self) -> Shape
        ensures { (result.source ≡ self.source) × (result.states ≡ self.states) × (result.inputs ≡ self.inputs) × (result.outputs ≡ self.outputs) }
    {
        Shape {
            source: self.source,
            states: self.states,
            inputs: self.inputs,
            outputs: self.outputs,
        }
    }
}

// Numbers 2, 3, 14 and 1.
#[tactic(auto, unfolding(crate::specs::Reading::shape_test))]
fn shaped(c: Contents) -> Result<(), Refusal>
    ensures { result ≡ shape_test c }
{
    let shape = c.shape();
    shape.counted()?;
    shape.sized(c.rows)
}

// Number 4. The rows may lie across blocks, so they are gathered first; of the right length, they fit.
#[tactic(auto, using(crate::proofs::Files::put_back), unfolding(crate::specs::Reading::rows_test))]
fn entries(file: &[u8], c: Contents) -> Result<(), Refusal>
    requires rows_value { c.rows ≡ length (rows_of file.now) }
    requires rows_le_most_rows { c.rows ≤ most_rows }
    ensures { result ≡ rows_test c (rows_of file.now) }
{
    let mut rows = [0; MOST_ROWS];
    file::gather(file, Kind::Rows, &mut rows);
    c.shape().entries(&rows[..c.rows])
}

// Numbers 5, 6 and 9, of bounds and of so many events.
fn limited(waiting: usize, losses: usize, events: usize) -> Result<(), Refusal>
    ensures { result ≡ first_of (of_table (bounds_test waiting losses) ∷ must (leb events most_events) (refusal.Content (table_refusal.Events events)) ∷ []) }
{
    table::bounds(waiting, losses)?;
    if MOST_EVENTS < events {
        return Err(Refusal::Content(table::Refusal::Events(events)));
    }
    Ok(())
}

// Number 7, of so many events, of which so many come before the first that is not valid.
fn followed(valid: usize, events: usize) -> Result<(), Refusal>
    ensures { result ≡ must (eqb valid events) (refusal.Content (table_refusal.Event valid)) }
{
    if valid == events {
        Ok(())
    } else {
        Err(Refusal::Content(table::Refusal::Event(valid)))
    }
}

// Number 10, of buffers of these lengths.
#[tactic(auto, unfolding(crate::specs::Reading::room_test))]
fn room(c: Contents, rows: usize, events: usize) -> Result<(), Refusal>
    ensures { result ≡ room_test c rows events }
{
    if rows < c.rows {
        return Err(Refusal::Content(table::Refusal::Buffer(c.rows)));
    }
    if events < c.events {
        return Err(Refusal::Content(table::Refusal::Buffer(c.events)));
    }
    Ok(())
}

// All tests of what the file holds, for buffers of these lengths.
#[tactic(auto, using(crate::proofs::Tests::rows_fit), unfolding(crate::specs::Reading::limits_test, crate::specs::Reading::events_test, crate::specs::Reading::held_test, crate::specs::Reading::content_test))]
fn content(file: &[u8], c: Contents, rows: usize, events: usize) -> Result<(), Refusal>
    requires { c.rows ≡ length (rows_of file.now) }
    ensures { result ≡ content_test c (rows_of file.now) (events_of file.now) rows events }
{
    shaped(c)?;
    entries(file, c)?;
    limited(usize::from(c.waiting), usize::from(c.losses), c.events)?;
    followed(file::valid_events(file, c.inputs, c.outputs), c.events)?;
    room(c, rows, events)
}

// What reading the file into buffers of these lengths answers.
#[tactic(auto, unfolding(crate::specs::Reading::verdict, crate::specs::File::contents_of))]
pub fn judge(file: &[u8], rows: usize, events: usize) -> Result<Contents, Refusal>
    ensures { result ≡ answer (verdict file.now rows events) (contents_of file.now) }
{
    file::form(file)?;
    let c = contents(file);
    content(file, c, rows, events)?;
    Ok(c)
}

// What the file holds, if its form is good.
pub(crate) fn held_by(file: &[u8]) -> Result<Contents, Refusal>
    ensures { result ≡ answer (form_test file.now) (contents_of file.now) }
{
    file::form(file)?;
    Ok(contents(file))
}

// The tests of what a file holds, numbers 2, 3, 14, 1, 4, 5, 6, 9 and 7, of things that are to be written into one.
#[tactic(auto, using(crate::proofs::Tests::counts_small), unfolding(crate::specs::Reading::shape_test, crate::specs::Reading::rows_test, crate::specs::Reading::limits_test, crate::specs::Reading::events_test, crate::specs::Reading::held_test))]
pub fn test(source: Source, rules: &Rules, trace: &[u8]) -> Result<(), Refusal>
    ensures { result ≡ held_test (given source rules.now.states rules.now.inputs rules.now.outputs rules.now.waiting rules.now.losses rules.now.rows.now trace.now) rules.now.rows.now trace.now }
{
    table::counts(rules.states, rules.inputs, rules.outputs)?;
    let shape = Shape {
        source,
        states: rules.states as u8,
        inputs: rules.inputs as u8,
        outputs: rules.outputs as u8,
    };
    shape.sized(rules.rows.len())?;
    shape.entries(rules.rows)?;
    limited(rules.waiting, rules.losses, trace.len())?;
    followed(file::valid(trace, shape.inputs, shape.outputs), trace.len())
}

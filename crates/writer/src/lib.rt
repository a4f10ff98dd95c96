// The writer of house files. It answers every table, bounds, trace and buffer: with a file at the buffer's start, or with the first of
// the reader's refusals of what is to be held, then number 10. A refusal leaves the buffer as it was, and later bytes always stay.
// What the written bytes mean is the reader's definition, in the crate `house`.
#![tactic(auto)]

ghost use Rattle.house.specs.Laws.{GoodContents};
ghost use Rattle.house.specs.Reading.{given};
ghost use Rattle.writer.specs.Laws.{Counted};
ghost use Rattle.writer.specs.Writing.{Writes};

use house::{Contents, Refusal, Source};
use table::Rules;

mod file;
mod payload;

// Writes good contents, if the buffer has room for the file, and tells how many bytes it has.
fn place(c: Contents, rows: &[u8], trace: &[u8], out: &mut [u8]) -> Result<usize, Refusal>
    requires counted { Counted c rows.now trace.now }
    requires good_contents { GoodContents c rows.now trace.now }
    ensures { Writes c rows.now trace.now out.old result out.new }
{
    let n = file::needed(c);
    if out.len() < n {
        return Err(Refusal::Content(table::Refusal::Buffer(n)));
    }
    file::lay(&mut out[..n], c, rows, trace);
    Ok(n)
}

// Writes the file of a table, or of the standard box, with these bounds and this trace to the start of a buffer. Counts and rows are
// given with the standard box too, and must be 64, 16, 16 and none.
pub fn write(source: Source, rules: &Rules, trace: &[u8], out: &mut [u8]) -> Result<usize, Refusal>
    ensures { Writes (given source rules.now.states rules.now.inputs rules.now.outputs rules.now.waiting rules.now.losses rules.now.rows.now trace.now) rules.now.rows.now trace.now out.old result out.new }
{
    house::test(source, rules, trace)?;
    let contents = Contents {
        states: rules.states as u8,
        inputs: rules.inputs as u8,
        outputs: rules.outputs as u8,
        waiting: rules.waiting as u8,
        losses: rules.losses as u8,
        source,
        rows: rules.rows.len(),
        events: trace.len(),
    };
    place(contents, rules.rows, trace, out)
}

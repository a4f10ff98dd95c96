// House files made from others: with other bounds, with another trace, or with the check of block 0 put right. Every input is answered,
// with a file at the buffer's start or with the first refusal: of the file that was given, then of what is to be written. A refusal leaves
// the buffer as it was, and later bytes always stay.
#![tactic(auto)]

ghost use Rattle.std.specs.Prelude.{◌≡◌};
ghost use Rattle.remake.specs.Mending.{Mends};
ghost use Rattle.remake.specs.Remaking.{Rebinds, Retraces};

use block::{BLOCK, CHECK_AT};
use house::{Contents, MOST_BYTES, MOST_EVENTS, MOST_ROWS, Refusal};
use lent::front;
use table::Rules;

// What a file that was read says of the box, with its rows.
fn rules(c: Contents, rows: &[u8]) -> Rules<'_>
    ensures rows_value { result.rows.now ≡ rows.now }
    ensures counts { (result.states ≡ c.states) × (result.inputs ≡ c.inputs) × (result.outputs ≡ c.outputs) }
    ensures bounds { (result.waiting ≡ c.waiting) × (result.losses ≡ c.losses) }
{
    Rules {
        rows,
        states: usize::from(c.states),
        inputs: usize::from(c.inputs),
        outputs: usize::from(c.outputs),
        waiting: usize::from(c.waiting),
        losses: usize::from(c.losses),
    }
}

// Writes the house file `file` with these bounds in place of its own, which are not looked at. Blocks hold no more rows, and no more events,
// than the longest file has bytes.
pub fn rebound(file: &[u8], waiting: usize, losses: usize, out: &mut [u8]) -> Result<usize, Refusal>
    ensures { Rebinds file.now waiting losses out.old result out.new }
{
    let mut rows = [0u8; MOST_BYTES];
    let mut events = [0u8; MOST_BYTES];
    let c = house::unpack(file, &mut rows, &mut events)?;
    let rebound = Rules {
        waiting,
        losses,
        ..rules(c, front(&rows, c.rows))
    };
    writer::write(c.source, &rebound, front(&events, c.events), out)
}

// Writes the house file `file` with this trace in place of its own. It is read as into rooms for a good file; its own events go nowhere.
pub fn retrace<'a>(file: &'a [u8], trace: &'a [u8], out: &mut [u8]) -> Result<usize, Refusal>
    ensures { Retraces file.now trace.now out.old result out.new }
{
    let mut rows = [0u8; MOST_ROWS];
    let reading = house::judge(file, MOST_ROWS, MOST_EVENTS);
    house::hand(reading, file, &mut rows, &mut []);
    let c = reading?;
    writer::write(c.source, &rules(c, front(&rows, c.rows)), trace, out)
}

// Writes the house file `file` with the check of block 0 put right. Of the file nothing but its length is tested.
pub fn mend(file: &[u8], out: &mut [u8]) -> Result<usize, Refusal>
    ensures { Mends file.now out.old result out.new }
{
    let n = file.len();
    if !house::whole(n) {
        return Err(Refusal::Length(n));
    }
    if out.len() < n {
        return Err(Refusal::Content(table::Refusal::Buffer(n)));
    }
    let check = block::check(file) as u16;
    out[..n].copy_from_slice(file);
    out[CHECK_AT..BLOCK].copy_from_slice(&check.to_le_bytes());
    Ok(n)
}

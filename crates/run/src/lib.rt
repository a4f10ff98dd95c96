// A whole run over a trace, with the table, the trace and the results in the caller's memory.
#![tactic(auto)]

ghost use Rattle.std.specs.Prelude.{◌≡◌};
ghost use Rattle.run.specs.Run.{traced, run_test, Runs};

use session::MOST_EVENTS;
use table::{Refusal, Rules};

mod column;
mod lag;
mod line;
mod trace;

// The tests of a trace: 9, 7 and 10, for a result buffer of this length.
fn trace_tests(trace: &[u8], inputs: u8, outputs: u8, room: usize) -> Result<(), Refusal>
    ensures { result ≡ traced trace.now inputs outputs room }
{
    let len = trace.len();
    if MOST_EVENTS < len {
        return Err(Refusal::Events(len));
    }
    table::events(trace, inputs, outputs)?;
    if room < 12 * len {
        return Err(Refusal::Buffer(12 * len));
    }
    Ok(())
}

// The tests of a run: as opening, then 9, 7, 10.
#[tactic(auto, using(session::proofs::Openings::small_opening), unfolding(crate::specs::Run::run_test))]
fn tests(rules: &Rules, trace: &[u8], room: usize) -> Result<(), Refusal>
    ensures { result ≡ run_test rules.now.rows.now rules.now.states rules.now.inputs rules.now.outputs rules.now.waiting rules.now.losses trace.now room }
{
    session::tested(rules)?;
    trace_tests(trace, rules.inputs as u8, rules.outputs as u8, room)
}

// For each event the twelve bytes of the set of plausible configurations after it, and the place of the first flagged event, if any. Nothing is
// written unless all tests pass.
pub fn run(rules: &Rules, trace: &[u8], out: &mut [u8]) -> Result<Option<usize>, Refusal>
    ensures { Runs rules.now.rows.now rules.now.states rules.now.inputs rules.now.outputs rules.now.waiting rules.now.losses trace.now out.old result out.new }
{
    tests(rules, trace, out.len())?;
    Ok(trace::followed(rules, trace, out))
}

// House files for programs in other languages, as the crate `sessiondoors` has sessions for them: one is written, or made from another with
// other bounds, with another trace, or with the check of block 0 put right. Numbers and lent slices only. A slice is passed as its address,
// which may be null where the count is 0, and its count of elements. No slice that is written to lies over another. Nothing else is asked:
// every function answers every input. It answers false exactly when the memory lent for its results is too short, and then nothing is
// written; a refusal is an answer of true, with its number in the results. The results are number, place and second place, and how many bytes
// the file has, which is at the start of `out`.
#![tactic(auto)]

ghost use Rattle.std.specs.Prelude.{◌≡◌};
ghost use Rattle.std.specs.Fn.{FnOnceReturnsAtMut};
ghost use Rattle.writerdoors.specs.Results.{source_meant, write_results, Making, WriteAnswers, RebindAnswers, RetraceAnswers, MendAnswers};

use house::{Refusal, Source};
use table::{Rules, Told};

// How many words the results are, of every function.
const WRITE: usize = 4;

// The number, both places, and how many bytes the file has.
fn of_write(writing: Result<usize, Refusal>) -> [u64; 4]
    ensures { result ≡ write_results writing }
{
    let told = Told::of(writing);
    [
        u64::from(told.number),
        told.place as u64,
        told.second as u64,
        writing.unwrap_or(0) as u64,
    ]
}

// Does this work on the buffer, and puts its results to the start of `told`; nothing of it where `told` is too short for them.
fn answered<F: FnOnce(&mut [u8]) -> Result<usize, Refusal>>(
    out: &mut [u8],
    told: &mut [u64],
    work: F,
) -> bool
    requires { F.IsAlwaysCallable work }
    ensures { Making (λ w o. FnOnceReturnsAtMut F.FnOnce work out.old w o) out.old told.old result out.new told.new }
{
    if told.len() < WRITE {
        return false;
    }
    let results = of_write(work(out));
    lent::put(&results, told, 0);
    true
}

// Writes a house file. The source is 0 for the rows that are given, anything else for the standard box.
#[unsafe(no_mangle)]
pub extern "C" fn rillmoth_write(
    source: usize,
    rows: &[u8],
    states: usize,
    inputs: usize,
    outputs: usize,
    waiting: usize,
    losses: usize,
    trace: &[u8],
    out: &mut [u8],
    told: &mut [u64],
) -> bool
    ensures { WriteAnswers (source_meant source) rows.now states inputs outputs waiting losses trace.now out.old told.old result out.new told.new }
{
    answered(out, told, |out| {
        let rules = Rules {
            rows,
            states,
            inputs,
            outputs,
            waiting,
            losses,
        };
        writer::write(Source::from(source), &rules, trace, out)
    })
}

// Writes a house file with these bounds in place of its own, which are not looked at.
#[unsafe(no_mangle)]
pub extern "C" fn rillmoth_rebind(
    file: &[u8],
    waiting: usize,
    losses: usize,
    out: &mut [u8],
    told: &mut [u64],
) -> bool
    ensures { RebindAnswers file.now waiting losses out.old told.old result out.new told.new }
{
    answered(out, told, |out| remake::rebound(file, waiting, losses, out))
}

// Writes a house file with this trace in place of its own.
#[unsafe(no_mangle)]
pub extern "C" fn rillmoth_retrace<'a>(
    file: &'a [u8],
    trace: &'a [u8],
    out: &mut [u8],
    told: &mut [u64],
) -> bool
    ensures { RetraceAnswers file.now trace.now out.old told.old result out.new told.new }
{
    answered(out, told, |out| remake::retrace(file, trace, out))
}

// Writes a house file with the check of block 0 put right. Of the file nothing but its length is tested.
#[unsafe(no_mangle)]
pub extern "C" fn rillmoth_mend(file: &[u8], out: &mut [u8], told: &mut [u64]) -> bool
    ensures { MendAnswers file.now out.old told.old result out.new told.new }
{
    answered(out, told, |out| remake::mend(file, out))
}

// Captures for programs in other languages, as the crate `sessiondoors` has sessions for them: numbers and lent slices only. A slice is passed
// as its address, which may be null where the count is 0, and its count of elements. No slice that is written to lies over another. Nothing
// else is asked: every function answers every input. It answers false exactly when the memory lent for its results is too short, and then
// nothing is written; a refusal is an answer of true, with its number in the results.
#![tactic(auto)]

ghost use Rattle.std.specs.Prelude.{◌≡◌};
ghost use Rattle.capturedoors.specs.Results.{import_results, hand_results, Importing, Handing};

use capture::{Handed, Refusal, reader};
use table::Told;

// How many words the results of an import are, and those of one call of the reader.
const IMPORT: usize = 4;

const HAND: usize = 6;

fn of_import(imported: Result<usize, Refusal>) -> [u64; 4]
    ensures { result ≡ import_results imported }
{
    let t = Told::of(imported);
    let n = imported.unwrap_or(0);
    [t.number.into(), t.place as u64, t.second as u64, n as u64]
}

fn of_hand(handed: Handed) -> [u64; 6]
    ensures { result ≡ hand_results handed }
{
    let t = Told::of(handed.taken);
    let event = handed.taken.unwrap_or(None);
    [
        t.number.into(),
        t.place as u64,
        t.second as u64,
        event.is_some().into(),
        event.unwrap_or(0).into(),
        handed.place as u64,
    ]
}

// Imports a capture: one byte a record, to the start of the buffer. The results are number, place and second place, which is 0, and how
// many events were written.
#[tactic(auto, using(crate::proofs::Answers::import_short, crate::proofs::Answers::imports_by))]
#[unsafe(no_mangle)]
pub extern "C" fn rillmoth_import(capture: &[u8], events: &mut [u8], told: &mut [u64]) -> bool
    ensures { Importing capture.now events.old told.old result events.new told.new }
{
    if told.len() < IMPORT {
        return false;
    }
    let imported = capture::import(capture, &mut *events);
    lent::put(&of_import(imported), &mut *told, 0);
    true
}

// One call of a reader at a place. The results are number, place and second place, which is 0, 1 for an event and 0 else, the event byte,
// and the place of the reader then. With no number and no event it is at the end.
#[tactic(auto, using(crate::proofs::Answers::hand_short, crate::proofs::Answers::hands_by))]
#[unsafe(no_mangle)]
pub extern "C" fn rillmoth_hand(capture: &[u8], place: usize, told: &mut [u64]) -> bool
    ensures { Handing capture.now place told.old result told.new }
{
    if told.len() < HAND {
        return false;
    }
    lent::put(&of_hand(reader::hand(capture, place)), &mut *told, 0);
    true
}

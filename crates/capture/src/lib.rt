// Captures that ordinary tools write: classic pcap, of which each record is one event of the tap. A reader hands out one event at a time,
// and a whole import writes them all. No function asks anything of its caller: specs/Capture.antt says what a capture's bytes mean,
// specs/Reading.antt what the reader answers, and specs/Importing.antt what an import does.
#![tactic(auto)]

ghost use Rattle.capture.specs.Importing.{Imports};

pub mod answer;
mod bytes;
pub mod reader;
mod whole;

pub use answer::{Handed, Refusal};
pub use reader::Reader;

// Imports a capture: one byte a record, to the start of the buffer; later bytes keep their values. A refused import writes nothing.
#[tactic(auto, using(crate::proofs::Imports::room_for))]
pub fn import(capture: &[u8], events: &mut [u8]) -> Result<usize, Refusal>
    ensures { Imports capture.now events.old result events.new }
{
    let count = whole::judge(capture, events.len())?;
    whole::gather(capture, events);
    Ok(count)
}

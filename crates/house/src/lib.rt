// The reader of house files. It answers every file: with what the file holds, or with the first of document 01's refusals.
// A refused file leaves the caller's buffers as they were. The crate `block` has its blocks; specs/File.antt says what they hold
// together, specs/Reading.antt what is read.
#![tactic(auto)]

ghost use Rattle.std.specs.Prelude.{◌≡◌};
ghost use Rattle.house.specs.File.{rows_of, events_of};
ghost use Rattle.house.specs.Reading.{handed, Answers, Unpacks};

pub mod answer;
mod content;
mod file;

pub use answer::{Contents, Refusal, Source};
use block::Kind;
pub use content::{MOST_EVENTS, MOST_ROWS, judge, test};
pub use file::{MOST_BYTES, whole};
pub use flaw::Flaw;

// Hands out what the blocks hold, unless the file was refused. What has no room in its buffer is not put there.
pub fn hand(reading: Result<Contents, Refusal>, file: &[u8], rows: &mut [u8], events: &mut [u8])
    ensures rows_after { rows.new ≡ handed reading rows.old (rows_of file.now) }
    ensures events_after { events.new ≡ handed reading events.old (events_of file.now) }
{
    if reading.is_ok() {
        file::gather(file, Kind::Rows, rows);
        file::gather(file, Kind::Events, events);
    }
}

// Reads a file: its rows to the start of one buffer, its events to the start of another. With source 1 there are no rows to copy.
#[tactic(auto, using(crate::proofs::Tests::roomy, crate::proofs::Tests::good_passed, crate::proofs::Tests::handed_after))]
pub fn read(file: &[u8], rows: &mut [u8], events: &mut [u8]) -> Result<Contents, Refusal>
    ensures { Answers file.now rows.old events.old result rows.new events.new }
{
    let reading = content::judge(file, rows.len(), events.len());
    hand(reading, file, rows, events);
    reading
}

// Tests a file's form, and no more: numbers 11, 12 and 20 to 23. What its blocks hold goes to the starts of the buffers, whatever it is; what
// has no room in its buffer is not put there.
pub fn unpack(file: &[u8], rows: &mut [u8], events: &mut [u8]) -> Result<Contents, Refusal>
    ensures { Unpacks file.now rows.old events.old result rows.new events.new }
{
    let reading = content::held_by(file);
    hand(reading, file, rows, events);
    reading
}

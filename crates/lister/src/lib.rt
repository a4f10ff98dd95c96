// Lists a house file: reads it, runs its trace, and writes the listing piece by piece, a line each, to a writer, as a descriptor is, or into
// memory that is lent. No input, however damaged, stops it; a failed read or write ends it. Which bytes a piece is, and how many there are,
// specs/Listing.antt says; only `put`, `say_all`, `list_file`, `list_from` and `list` read or write. What the first three write is told of a
// writer whose bytes are known; of what the last two read and write no contract speaks.
#![tactic(auto)]

ghost use Rattle.std.specs.Prelude.{◌≤◌, OnOk};
ghost use Rattle.std.specs.Io.KnownBytes.{Appends};
ghost use Rattle.lister.specs.Listing.{event_room, events_in, listing_of, Writes};

use house::MOST_EVENTS;
use intake::Descriptor;
use judge::RESULT_ROOM;
use output::Output;
use pieces::Listing;
use std::io::{self, ErrorKind, Read, Write};
use table::Told;

mod judge;
mod output;
mod pieces;
mod whole;

pub use whole::text;

// Bytes that are enough for every listing: the header, 4,096 events and the last line, of 96 bytes each at most.
pub const LISTING_ROOM: usize = (MOST_EVENTS + 2) * 96;

// What the listing came to.
#[derive(Clone, Copy)]
pub enum Outcome {
    Consistent,
    Flagged,
    Refused,
    // The input could not be read to its end, or the listing not written.
    Broken,
}

// What is told with a listing that stands in memory.
#[derive(Clone, Copy)]
pub struct Summary {
    // The number and the places of the refusal; zeros, where there is none.
    pub told: Told,
    // How many bytes the listing has.
    pub bytes: usize,
    // How many events the file has; none, where it is refused.
    pub events: usize,
    pub flag: Option<usize>,
}

// Writes all the bytes, or stops at the first write that takes none or fails; `write_all` would make one again that a signal interrupted.
fn put<W: Write>(output: &mut W, bytes: &[u8]) -> io::Result<()>
    ensures { OnOk result (Appends (W.contents output.old) (W.contents output.new) bytes.now) }
{
    let mut rest = bytes;
    while !rest.is_empty() {
        match output.write(rest)? {
            0 => return Err(io::Error::from(ErrorKind::WriteZero)),
            n => rest = &rest[n..],
        }
    }
    Ok(())
}

// All pieces, one after another.
fn say_all<W: Write>(output: &mut W, listing: &Listing<'_>) -> io::Result<()>
    requires { events_in listing.now.judged ≤ event_room }
    ensures { OnOk result (Appends (W.contents output.old) (W.contents output.new)
        (listing_of listing.now.judged listing.now.length listing.now.events.now listing.now.results.now)) }
{
    for k in 0..listing.pieces() {
        put(&mut *output, listing.piece(k).as_bytes())?;
    }
    Ok(())
}

// The listing of a file, of which these bytes were kept, and which has this length.
fn list_file<W: Write>(output: &mut W, file: &[u8], length: usize) -> Outcome
    ensures { Writes (W.contents output.old) (W.contents output.new) file.now length result }
{
    let mut events = [0; MOST_EVENTS];
    let mut results = [0; RESULT_ROOM];
    let judged = judge::judge(file, &mut events, &mut results);
    let listing = Listing {
        judged,
        length,
        events: &events,
        results: &results,
    };
    match say_all(output, &listing) {
        Ok(()) => listing.outcome(),
        Err(_) => Outcome::Broken,
    }
}

// Lists the house file that `input` gives to its end; the listing goes to `output`.
pub fn list_from<R: Read, W: Write>(input: &mut R, output: &mut W) -> Outcome {
    let mut file = intake::file_room();
    let came = intake::keep_from(input, &mut file);
    let Ok(length) = came.length else {
        return Outcome::Broken;
    };
    list_file(output, lent::front(&file, came.kept), length)
}

// The same from one descriptor to another.
pub fn list(input: i32, output: i32) -> Outcome {
    list_from(&mut Descriptor::new(input), &mut Output(output))
}

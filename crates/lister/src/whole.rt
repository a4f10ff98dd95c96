// The whole listing in memory that is lent, and what is told with it. No function of this file touches a descriptor. specs/Putting.antt
// says which bytes stand there.
ghost use Rattle.std.specs.Prelude.{◌≡◌, ◌≤◌};
ghost use Rattle.lister.specs.Listing.{event_room, events_in, piece_of, pieces_of};
ghost use Rattle.lister.specs.Putting.{no_summary, Roomy, Puts, Texts};

use super::judge::{self, RESULT_ROOM};
use super::pieces::Listing;
use super::{LISTING_ROOM, Summary};
use house::MOST_EVENTS;
use table::Told;

// Puts all pieces one after another at the start of the memory, and tells how many bytes they are. `say_all` is a loop of its own: a writer may
// fail, and this may not, since `text` answers every input.
fn put_all(listing: &Listing<'_>, out: &mut [u8]) -> usize
    requires room { Roomy (pieces_of listing.now.judged) out.old }
    requires few { events_in listing.now.judged ≤ event_room }
    ensures { Puts (piece_of listing.now.judged listing.now.length listing.now.events.now listing.now.results.now) (pieces_of listing.now.judged) out.old result out.new }
{
    let mut at = 0;
    for k in 0..listing.pieces() {
        let piece = listing.piece(k);
        lent::put(piece.as_bytes(), out, at);
        at += piece.as_bytes().len();
    }
    at
}

// What is told where there is no room.
fn nothing() -> Summary
    ensures { result ≡ no_summary }
{
    Summary {
        told: Told::NOTHING,
        bytes: 0,
        events: 0,
        flag: None,
    }
}

// Puts the listing of a file, of which these bytes were kept, and which has this length, at the start of the memory. Memory that is shorter
// than the room stays as it was, even where this listing would fit: then no byte is told, and every listing has some.
pub fn text(file: &[u8], length: usize, out: &mut [u8]) -> Summary
    ensures { Texts file.now length out.old result out.new }
{
    if out.len() < LISTING_ROOM {
        return nothing();
    }
    let mut events = [0; MOST_EVENTS];
    let mut results = [0; RESULT_ROOM];
    let judged = judge::judge(file, &mut events, &mut results);
    let listing = Listing {
        judged,
        length,
        events: &events,
        results: &results,
    };
    let bytes = put_all(&listing, out);
    Summary {
        told: listing.refusal(),
        bytes,
        events: listing.count(),
        flag: listing.flag(),
    }
}

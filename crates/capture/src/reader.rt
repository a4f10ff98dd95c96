// A reader holds a capture's bytes and its place in them, and hands out one event at a time. `taken_at` does the work of each record, on
// the slice and the number, and `after` moves the place; over the struct there are few functions, and each takes it apart.
ghost use Rattle.std.specs.Prelude.{◌≡◌, cond, ltb};
ghost use Rattle.model.specs.Limits.{most_events};
ghost use Rattle.capture.specs.Reading.{taken_at, place_after, handed_at};

use super::answer::{Handed, Refusal};
use super::bytes;
use session::MOST_EVENTS;

// The place is the next record's index.
#[derive(Clone, Copy)]
pub struct Reader<'a> {
    pub capture: &'a [u8],
    pub place: usize,
}

// What record i gives: 15 comes first, also past the last byte, and then the first of its tests that fails, 16, 9, 7.
#[tactic(auto, unfolding(crate::specs::Reading::taken_at, crate::specs::Reading::tested))]
pub(crate) fn taken_at(capture: &[u8], i: usize) -> Result<Option<u8>, Refusal>
    ensures { result ≡ taken_at capture.now i }
{
    if !bytes::headed(capture) {
        return Err(Refusal::Header);
    }
    let record = bytes::record_at(capture, i);
    if record.is_empty() {
        return Ok(None);
    }
    if !bytes::right(bytes::big(capture), record) {
        return Err(Refusal::Record(i));
    }
    if MOST_EVENTS <= i {
        return Err(Refusal::Events(i + 1));
    }
    let byte = bytes::octet(record);
    if !bytes::of_layout(byte) {
        return Err(Refusal::Event(i));
    }
    Ok(Some(byte))
}

// The place after an answer: an event is passed, and nothing else. No event is handed out at or above the limit.
fn after(taken: Result<Option<u8>, Refusal>, place: usize) -> usize
    ensures { result ≡ cond (ltb place most_events) (place_after taken place) place }
{
    if MOST_EVENTS <= place {
        return place;
    }
    match taken {
        Ok(Some(_)) => place + 1,
        Ok(None) | Err(_) => place,
    }
}

impl<'a> Reader<'a> {
    // A reader at a place; at place 0 it is at the capture's start.
    pub fn open_at(capture: &'a [u8], place: usize) -> Reader<'a>
        ensures capture { result.capture ≡ capture.entry }
        ensures place { result.place ≡ place }
    {
        Reader { capture, place }
    }

    // Hands out one event and moves on. At the end it stays there, and a refusal leaves it where it is.
    #[tactic(auto, using(crate::proofs::Handing::place_kept))]
    pub fn take(&mut self) -> Result<Option<u8>, Refusal>
        ensures answer { result ≡ taken_at self.old.capture.now self.old.place }
        ensures capture { self.new.capture ≡ self.old.capture }
        ensures place { self.new.place ≡ place_after (taken_at self.old.capture.now self.old.place) self.old.place }
    {
        let taken = taken_at(self.capture, self.place);
        self.place = after(taken, self.place);
        taken
    }
}

// One call of a reader at a place: what it hands out, and its place then.
pub fn hand(capture: &[u8], place: usize) -> Handed
    ensures { result ≡ handed_at capture.now place }
{
    let mut reader = Reader::open_at(capture, place);
    let taken = reader.take();
    Handed {
        taken,
        place: reader.place,
    }
}

// All records of a capture: the tests of a whole import, and what it writes.
ghost use Rattle.std.specs.Prelude.{◌≡◌, ◌≤◌, length};
ghost use Rattle.lent.specs.Lent.{front};
ghost use Rattle.capture.specs.Capture.{records, right_at, layout_at, events_of};
ghost use Rattle.capture.specs.Importing.{first_failing, imported};

use super::answer::Refusal;
use super::bytes;
use session::MOST_EVENTS;

// The first record that is short or has another length.
fn wrong_record(capture: &[u8]) -> Option<usize>
    ensures { result ≡ first_failing (right_at capture.now) (records capture.now) }
{
    let big = bytes::big(capture);
    (0..bytes::records(capture)).position(|k| !bytes::right(big, bytes::record_at(capture, k)))
}

// The first record whose octet is no event of the public layout.
fn strange_record(capture: &[u8]) -> Option<usize>
    ensures { result ≡ first_failing (layout_at capture.now) (records capture.now) }
{
    (0..bytes::records(capture)).position(|k| !bytes::of_layout(bytes::octet_at(capture, k)))
}

// What an import into a buffer of this length answers: 15, then 16, 9, 7 and 10, by the first test that fails.
#[tactic(auto, using(crate::proofs::Passing::some_below), unfolding(crate::specs::Importing::imported, crate::specs::Importing::verdict, crate::specs::Importing::passing))]
pub(crate) fn judge(capture: &[u8], room: usize) -> Result<usize, Refusal>
    ensures { result ≡ imported capture.now room }
{
    if !bytes::headed(capture) {
        return Err(Refusal::Header);
    }
    if let Some(index) = wrong_record(capture) {
        return Err(Refusal::Record(index));
    }
    let count = bytes::records(capture);
    if MOST_EVENTS < count {
        return Err(Refusal::Events(count));
    }
    if let Some(index) = strange_record(capture) {
        return Err(Refusal::Event(index));
    }
    if room < count {
        return Err(Refusal::Buffer(count));
    }
    Ok(count)
}

// Puts the octets of all records at the start of a buffer that has room for them; the rest of it stays.
#[tactic(auto, using(crate::proofs::Records::octets_none, crate::proofs::Records::octet_put, crate::proofs::Records::octets_length))]
pub(crate) fn gather(capture: &[u8], events: &mut [u8])
    requires { records capture.now ≤ length events.old }
    ensures { events.new ≡ front events.old (events_of capture.now) }
{
    let count = bytes::records(capture);
    for (k, event) in events[..count].iter_mut().enumerate() {
        *event = bytes::octet_at(capture, k);
    }
}

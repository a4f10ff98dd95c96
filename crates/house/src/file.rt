// A house file block by block: the tests of its blocks, and what they hold.
ghost use Rattle.std.specs.Prelude.{◌≡◌, length};
ghost use Rattle.lent.specs.Lent.{put};
ghost use Rattle.block.specs.Block.{kind_number, share};
ghost use Rattle.house.specs.File.{blocks, joined, events_of};
ghost use Rattle.house.specs.Reading.{is_whole, blocks_test, form_test, place_or, valid_events};

use super::answer::Refusal;
use block::{BLOCK, Kind};
use table::Tell;

const MOST_BLOCKS: usize = 15;

pub const MOST_BYTES: usize = MOST_BLOCKS * BLOCK;

// Numbers 12 and 20 to 23, block by block: the first block at fault is told.
fn test(file: &[u8]) -> Result<(), Refusal>
    ensures { result ≡ blocks_test file.now (blocks file.now) }
{
    let mut before: &[u8] = &[];
    for (k, b) in file.chunks_exact(BLOCK).enumerate() {
        block::test(b, k, before).map_err(|flaw| Refusal::Block(flaw, k))?;
        before = b;
    }
    Ok(())
}

// Whether a file of so many bytes has whole blocks, at least one and not too many.
pub fn whole(n: usize) -> bool
    ensures { result ≡ is_whole n }
{
    (1..=MOST_BYTES).contains(&n) && n % BLOCK == 0
}

// Numbers 11, 12 and 20 to 23.
#[tactic(auto, unfolding(crate::specs::Reading::form_test))]
pub(crate) fn form(file: &[u8]) -> Result<(), Refusal>
    ensures { result ≡ form_test file.now }
{
    let n = file.len();
    if !whole(n) {
        return Err(Refusal::Length(n));
    }
    test(file)
}

// What a block gives to the payload of this kind.
fn share(b: &[u8], q: Kind) -> &[u8]
    ensures { result.now ≡ share (kind_number q) b.now }
{
    block::share(b, u8::from(q))
}

// How many bytes the blocks of kind q hold.
pub(crate) fn measure(file: &[u8], q: Kind) -> usize
    ensures { result ≡ length (joined (kind_number q) file.now (blocks file.now)) }
{
    let mut sum = 0;
    for b in file.chunks_exact(BLOCK) {
        sum += share(b, q).len();
    }
    sum
}

// Puts what the blocks of kind q hold at the start of dst, if it has room for all of it; the rest of dst stays.
pub(crate) fn gather(file: &[u8], q: Kind, dst: &mut [u8])
    ensures { dst.new ≡ put dst.old (joined (kind_number q) file.now (blocks file.now)) }
{
    if dst.len() < measure(file, q) {
        return;
    }
    let mut at = 0;
    for b in file.chunks_exact(BLOCK) {
        let part = share(b, q);
        lent::put(part, dst, at);
        at += part.len();
    }
}

// The place that a test tells; n, if it passed.
fn place_or(test: Result<(), table::Refusal>, n: usize) -> usize
    ensures { result ≡ place_or test n }
{
    match test {
        Ok(()) => n,
        Err(refusal) => refusal.tell().place,
    }
}

// How many events come before the first that is not valid; all of them, if there is none.
#[tactic(auto, using(crate::proofs::Events::valid_told))]
pub(crate) fn valid(events: &[u8], inputs: u8, outputs: u8) -> usize
    ensures { result ≡ valid_events inputs outputs events.now }
{
    place_or(table::events(events, inputs, outputs), events.len())
}

// The same of all events of a file, block by block: nothing is copied to look at them.
pub(crate) fn valid_events(file: &[u8], inputs: u8, outputs: u8) -> usize
    ensures { result ≡ valid_events inputs outputs (events_of file.now) }
{
    let mut at = 0;
    for b in file.chunks_exact(BLOCK) {
        let part = share(b, Kind::Events);
        let good = valid(part, inputs, outputs);
        if good < part.len() {
            return at + good;
        }
        at += part.len();
    }
    at
}

// One block of a house file, as a slice of its 512 bytes: its bytes, what it holds, and the tests of numbers 12 and 20 to 23. No public function
// asks anything of its caller: each answers every slice, of whatever length, by an equation of specs/Block.antt.
#![tactic(auto)]

ghost use Rattle.std.specs.Prelude.{◌≡◌, ◌==◌, not, position};
ghost use Rattle.block.specs.Block.{check, kind_fits, order_fits, used_fits, source_fits, fill_of, seen, block_test};

use flaw::{Flaw, Seen};

mod bytes;
mod kinds;

pub use bytes::{CHECK_AT, ROOM, byte, share};
use bytes::{between, kind, number, stored, used};
pub use kinds::Kind;

pub const BLOCK: usize = 512;

pub const PAYLOAD_AT: usize = 6;

const MODULUS: usize = 65521;

// The used count of block 0.
const SETUP_SIZE: usize = 6;

const SOURCE_AT: usize = PAYLOAD_AT + 5;

// The check that the block should carry.
pub fn check(b: &[u8]) -> usize
    ensures { result ≡ check b.now }
{
    let mut sum = 0;
    for (i, x) in between(b, 0, CHECK_AT).iter().enumerate() {
        sum += (i + 1) * usize::from(*x);
    }
    sum % MODULUS
}

fn kind_fits(k: usize, kind: u8) -> bool
    ensures { result ≡ kind_fits k kind }
{
    if k == 0 {
        kind == u8::from(Kind::Setup)
    } else {
        kind == u8::from(Kind::Rows) || kind == u8::from(Kind::Events)
    }
}

// Whether a block of this kind may follow one of kind q with u bytes used.
fn order_fits(kind: u8, q: u8, u: usize) -> bool
    ensures { result ≡ order_fits kind q u }
{
    if kind == q { u == ROOM } else { q < kind }
}

fn used_fits(k: usize, used: usize) -> bool
    ensures { result ≡ used_fits k used }
{
    if k == 0 {
        used == SETUP_SIZE
    } else {
        (1..=ROOM).contains(&used)
    }
}

// Only block 0 has a source.
fn source_fits(k: usize, source: u8) -> bool
    ensures { result ≡ source_fits k source }
{
    k != 0 || source <= 1
}

// Where the first byte stands that is not zero.
fn first_set(bytes: &[u8]) -> Option<usize>
    ensures { result ≡ position (λ x. not (x == 0)) bytes.now }
{
    bytes.iter().position(|x| *x != 0)
}

// Zero fill: after the used count all is zero, up to the check. A used count that is too large leaves nothing to look at.
#[tactic(auto, using(crate::proofs::Blocks::fill_none, crate::proofs::Blocks::fill_at))]
fn fill(b: &[u8]) -> Option<usize>
    ensures { result ≡ fill_of b.now }
{
    let start = PAYLOAD_AT + used(b);
    let at = first_set(between(b, start, CHECK_AT))?;
    Some(start + at)
}

// What is seen of b as block k after the block `before`.
#[tactic(auto, unfolding(crate::specs::Block::seen))]
fn look(b: &[u8], k: usize, before: &[u8]) -> Seen
    ensures { result ≡ seen b.now k before.now }
{
    let here = kind(b);
    Seen {
        check: check(b) == stored(b),
        kind: kind_fits(k, here),
        order: order_fits(here, kind(before), used(before)),
        one: byte(b, 1) == 0,
        number: number(b) == k,
        used: used_fits(k, used(b)),
        source: source_fits(k, byte(b, SOURCE_AT)),
        fill: fill(b),
    }
}

// Numbers 12 and 20 to 23, of b as block k after the block `before`. Before block 0 stands nothing, the empty slice.
#[tactic(auto, unfolding(crate::specs::Block::block_test))]
pub fn test(b: &[u8], k: usize, before: &[u8]) -> Result<(), Flaw>
    ensures { result ≡ block_test b.now k before.now }
{
    flaw::first(look(b, k, before))
}

// The bytes of a block: its fields, and what it holds.
ghost use Rattle.std.specs.Prelude.{◌≡◌, ◌+◌, ◌-◌, ◌<◌, ◌≤◌, take, drop, get_or};
ghost use Rattle.block.specs.Limits.{check_at};
ghost use Rattle.block.specs.Block.{two, kind, number, used, payload, share, stored};

use super::PAYLOAD_AT;

pub const CHECK_AT: usize = 510;

// The bytes that a full block uses.
pub const ROOM: usize = CHECK_AT - PAYLOAD_AT;

// Byte i; past the end, 0.
pub fn byte(b: &[u8], i: usize) -> u8
    ensures { result ≡ get_or b.now i 0 }
{
    b.get(i).copied().unwrap_or(0)
}

// The bytes from one place up to another, as far as the slice has them.
pub(crate) fn between(b: &[u8], from: usize, to: usize) -> &[u8]
    ensures { result.now ≡ take (to - from) (drop from b.now) }
{
    let end = to.min(b.len());
    &b[from.min(end)..end]
}

pub(crate) fn kind(b: &[u8]) -> u8
    ensures { result ≡ kind b.now }
{
    byte(b, 0)
}

// The number of two bytes that begins at a place, up to that of the check.
fn word(b: &[u8], at: usize) -> usize
    requires { at ≤ check_at }
    ensures { (result ≡ two (get_or b.now at 0) (get_or b.now (at + 1) 0)) × (result < 65536) }
{
    usize::from(u16::from_le_bytes([byte(b, at), byte(b, at + 1)]))
}

pub(crate) fn number(b: &[u8]) -> usize
    ensures { result ≡ number b.now }
{
    word(b, 2)
}

pub(crate) fn used(b: &[u8]) -> usize
    ensures { (result ≡ used b.now) × (result < 65536) }
{
    word(b, 4)
}

pub(crate) fn stored(b: &[u8]) -> usize
    ensures { result ≡ stored b.now }
{
    word(b, CHECK_AT)
}

// The bytes used. A used count that is too large reaches to the payload's end, and in a slice that is too short, to the slice's.
fn payload(b: &[u8]) -> &[u8]
    ensures { result.now ≡ payload b.now }
{
    between(b, PAYLOAD_AT, PAYLOAD_AT + used(b).min(ROOM))
}

// What block b gives to the payload of kind q: any number, since a block may have any.
pub fn share(b: &[u8], q: u8) -> &[u8]
    ensures { result.now ≡ share q b.now }
{
    if kind(b) == q { payload(b) } else { &[] }
}

// The bytes of a capture: its header, and its records as parts of it.
ghost use Rattle.std.specs.Prelude.{◌≡◌, ◌≤◌};
ghost use Rattle.capture.specs.Capture.{byte, two_at, four_at, big, headed, record_at, right, octet, octet_at, of_layout, records};

const HEADER: usize = 24;

// A record's header of 16 bytes, and its octet.
const RECORD: usize = 17;

const MAGIC: u32 = 0xa1b2c3d4;

const LINK_TYPE: u32 = 147;

// Byte i; past the end, 0.
fn byte(s: &[u8], i: usize) -> u8
    ensures { result ≡ byte s.now i }
{
    s.get(i).copied().unwrap_or(0)
}

// The number whose two bytes stand one after another from i on, in either byte order. Each size has its own function, since `u16` and `u32`
// share no trait that makes them of bytes.
fn two_at(big: bool, s: &[u8], i: usize) -> u16
    requires { i ≤ 24 }
    ensures { result ≡ two_at big s.now i }
{
    let bytes = [byte(s, i), byte(s, i + 1)];
    if big {
        u16::from_be_bytes(bytes)
    } else {
        u16::from_le_bytes(bytes)
    }
}

// The same of four bytes.
fn four_at(big: bool, s: &[u8], i: usize) -> u32
    requires { i ≤ 24 }
    ensures { result ≡ four_at big s.now i }
{
    let bytes = [byte(s, i), byte(s, i + 1), byte(s, i + 2), byte(s, i + 3)];
    if big {
        u32::from_be_bytes(bytes)
    } else {
        u32::from_le_bytes(bytes)
    }
}

// Whether the capture has the most significant byte of its numbers first.
#[tactic(auto, unfolding(crate::specs::Capture::big))]
pub(crate) fn big(capture: &[u8]) -> bool
    ensures { result ≡ big capture.now }
{
    four_at(true, capture, 0) == MAGIC
}

// Number 15: whether the header is there and right.
#[tactic(auto, unfolding(crate::specs::Capture::headed))]
pub(crate) fn headed(capture: &[u8]) -> bool
    ensures { result ≡ headed capture.now }
{
    let big = big(capture);
    HEADER <= capture.len()
        && four_at(big, capture, 0) == MAGIC
        && two_at(big, capture, 4) == 2
        && two_at(big, capture, 6) == 4
        && four_at(big, capture, 20) == LINK_TYPE
}

// How many records there are. Bytes left after the last whole one are one more.
pub(crate) fn records(capture: &[u8]) -> usize
    ensures { result ≡ records capture.now }
{
    capture.len().saturating_sub(HEADER).div_ceil(RECORD)
}

// Record i: what there is of it, which past the last byte is nothing.
pub(crate) fn record_at(capture: &[u8], i: usize) -> &[u8]
    ensures { result.now ≡ record_at capture.now i }
{
    let start = RECORD.saturating_mul(i).saturating_add(HEADER);
    let rest = capture.get(start..).unwrap_or(&[]);
    &rest[..RECORD.min(rest.len())]
}

// Number 16: whether a part is a whole record, and both its lengths are 1.
#[tactic(auto, unfolding(crate::specs::Capture::right))]
pub(crate) fn right(big: bool, part: &[u8]) -> bool
    ensures { result ≡ right big part.now }
{
    RECORD <= part.len() && four_at(big, part, 8) == 1 && four_at(big, part, 12) == 1
}

pub(crate) fn octet(part: &[u8]) -> u8
    ensures { result ≡ octet part.now }
{
    byte(part, RECORD - 1)
}

pub(crate) fn octet_at(capture: &[u8], i: usize) -> u8
    ensures { result ≡ octet_at capture.now i }
{
    octet(record_at(capture, i))
}

// Number 7: whether a byte is an event of the public layout.
#[tactic(auto, unfolding(crate::specs::Capture::of_layout))]
pub(crate) fn of_layout(byte: u8) -> bool
    ensures { result ≡ of_layout byte }
{
    matches!(byte, 0..=15 | 128..=143)
}

// A payload in its blocks: in one, and in as many of one kind as it takes.
ghost use Rattle.std.specs.Prelude.{◌≡◌, ◌≤◌, ◌<◌, ◌*◌, length};
ghost use Rattle.block.specs.Limits.{block_size, room};
ghost use Rattle.block.specs.Block.{kind_number};
ghost use Rattle.writer.specs.Writing.{blocks_for};
ghost use Rattle.writer.specs.Layout.{header, block_of, all_of};

use block::{BLOCK, CHECK_AT, Kind, PAYLOAD_AT, ROOM};

// Kind, zero, block number, used count. A number of two bytes has the low byte first.
fn header(kind: Kind, number: u16, used: u16) -> [u8; PAYLOAD_AT]
    ensures { result ≡ header (kind_number kind) number used }
{
    let number = number.to_le_bytes();
    let used = used.to_le_bytes();
    [u8::from(kind), 0, number[0], number[1], used[0], used[1]]
}

// Writes block `number`, of this kind, with this payload. Whatever stood there before, the fill is zero.
pub(crate) fn put(out: &mut [u8], kind: Kind, number: u16, payload: &[u8])
    requires out_len { length out.old ≡ block_size }
    requires payload_len_bound { length payload.now ≤ room }
    ensures { out.new ≡ block_of (kind_number kind) number payload.now }
{
    let used = payload.len();
    out.fill(0);
    out[..PAYLOAD_AT].copy_from_slice(&header(kind, number, used as u16));
    out[PAYLOAD_AT..PAYLOAD_AT + used].copy_from_slice(payload);
    let check = block::check(out) as u16;
    out[CHECK_AT..].copy_from_slice(&check.to_le_bytes());
}

// The blocks that n bytes of one kind take.
pub(crate) fn blocks_for(n: usize) -> usize
    requires { n ≤ 4096 }
    ensures value { result ≡ blocks_for n }
    ensures bound { result ≤ 9 }
{
    n.div_ceil(ROOM)
}

// Writes a payload into blocks of this kind, of which the first has this number.
pub(crate) fn put_all(out: &mut [u8], kind: Kind, first: u16, payload: &[u8])
    requires payload_len_bound { length payload.now ≤ 4096 }
    requires first_bound { first ≤ 256 }
    requires out_len { length out.old ≡ block_size * blocks_for (length payload.now) }
    ensures { out.new ≡ all_of (kind_number kind) first payload.now }
{
    // By index: of what `chunks_mut` lends, the library's clauses don't say what the slice holds in the end.
    for (k, piece) in payload.chunks(ROOM).enumerate() {
        let start = BLOCK * k;
        put(
            &mut out[start..start + BLOCK],
            kind,
            first + k as u16,
            piece,
        );
    }
}

// A whole file: its length, and its bytes.
ghost use Rattle.std.specs.Prelude.{◌≡◌, ◌≤◌, length};
ghost use Rattle.block.specs.Limits.{block_size};
ghost use Rattle.writer.specs.Writing.{blocks_for, needed};
ghost use Rattle.writer.specs.Layout.{setup_of, file_of};

use super::payload::{blocks_for, put, put_all};
use block::{BLOCK, Kind};
use house::Contents;

// How long the file is that holds these contents.
pub(crate) fn needed(c: Contents) -> usize
    requires rows_bound { c.rows ≤ 2048 }
    requires events_bound { c.events ≤ 4096 }
    ensures { result ≡ needed c }
{
    BLOCK * (1 + blocks_for(c.rows) + blocks_for(c.events))
}

// Block 0's payload.
fn setup(c: Contents) -> [u8; 6]
    ensures { result ≡ setup_of c }
{
    [
        c.states,
        c.inputs,
        c.outputs,
        c.waiting,
        c.losses,
        u8::from(c.source),
    ]
}

// Writes the file: the setup, then the rows, then the events.
pub(crate) fn lay(out: &mut [u8], c: Contents, rows: &[u8], trace: &[u8])
    requires rows_value { c.rows ≡ length rows.now }
    requires events_value { c.events ≡ length trace.now }
    requires rows_bound { c.rows ≤ 2048 }
    requires events_bound { c.events ≤ 4096 }
    requires out_len { length out.old ≡ needed c }
    ensures { out.new ≡ file_of c rows.now trace.now }
{
    let row_blocks = blocks_for(rows.len());
    let (first, later) = out.split_at_mut(BLOCK);
    let (of_rows, of_events) = later.split_at_mut(BLOCK * row_blocks);
    put(first, Kind::Setup, 0, &setup(c));
    put_all(of_rows, Kind::Rows, 1, rows);
    put_all(of_events, Kind::Events, 1 + row_blocks as u16, trace);
}

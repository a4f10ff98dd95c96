// The twelve bytes that a run writes for an event: which states are plausible, how many may wait, and how many may have been lost.
ghost use Rattle.std.specs.Prelude.{◌≡◌, ℕ, ◌+◌, ◌-◌, ◌*◌, ◌≤◌, ◌<◌, length};
ghost use Rattle.run.specs.Lag.{SmallLags, line_of};
ghost use Rattle.model.specs.Limits.{most_events};
ghost use Rattle.run.specs.Run.{Put};
ghost use Rattle.run.specs.Trace.{empty_line, Emptied};

use crate::lag::Tally;

// What stands for a number where there is none.
const NONE: u8 = 255;

// The line of nothing.
const NOTHING: [u8; 12] = [0, 0, 0, 0, 0, 0, 0, 0, NONE, NONE, NONE, NONE];

// The line of a tally, where n may wait and fewer than c be lost. Of a lag at least what cannot be lost waits, and at least what cannot wait
// is lost; at most all of it waits, or is lost, within its bound.
pub(crate) fn line(t: Tally, n: u8, c: u8) -> [u8; 12]
    requires { (0 < c) × SmallLags t.lags }
    ensures { result ≡ line_of t n c }
{
    let mut line = NOTHING;
    line[..8].copy_from_slice(&t.states.to_le_bytes());
    if let Some(lags) = t.lags {
        let least = lags.least as u8;
        let most = lags.most as u8;
        line[8] = least.saturating_sub(c - 1);
        line[9] = most.min(n);
        line[10] = least.saturating_sub(n);
        line[11] = most.min(c - 1);
    }
    line
}

// The twelve bytes are written from a place on. By `copy_from_slice` the compiler would first look whether they overlap.
pub(crate) fn put(out: &mut [u8], place: usize, line: [u8; 12])
    requires { place + 12 ≤ length out.old }
    ensures { Put place line out.old out.new }
{
    for (i, &byte) in line.iter().enumerate() {
        out[place + i] = byte;
    }
}

// The line of nothing is written for the events from k to below n.
pub(crate) fn emptied(out: &mut [u8], k: usize, n: usize)
    requires { (k ≤ n) × (n ≤ most_events) × (12 * n ≤ length out.old) }
    ensures { Emptied k n out.old out.new }
{
    for i in k..n {
        put(out, 12 * i, NOTHING);
    }
}

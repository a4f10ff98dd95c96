// What one event does to a set and its line, in place: the event first, and then any number of takes and losses.
ghost use Rattle.std.specs.Prelude.{◌≤◌, ◌<◌};
ghost use Rattle.monitor.specs.Feed.{Held};
ghost use Rattle.monitor.specs.Event.{Arrival, Departure};

use crate::sweep::{self, Moves};

// The n held inputs, of at most `most`, with a after them: the oldest is forgotten where they were as many.
fn hold(held: &mut [u8; 32], n: usize, most: usize, a: u8)
    requires { (n ≤ most) × (0 < most) × (most ≤ 32) }
    ensures { Held n most a held.old held.new }
{
    if n < most {
        held[n] = a;
    } else {
        held.copy_within(1..most, 0);
        held[most - 1] = a;
    }
}

impl Moves<'_> {
    // Input a comes. The line has the n newest inputs, of at most `most`; how many it has then is the answer.
    pub(crate) fn arrived(
        &self,
        set: &mut [u64; 264],
        held: &mut [u8; 32],
        most: usize,
        n: usize,
        a: u8,
    ) -> usize
        requires { (n ≤ most) × (0 < most) × (most ≤ 32) }
        ensures { Arrival self.now.rows.now self.now.width most self.now.losses n a result set.old held.old set.new held.new }
    {
        hold(held, n, most, a);
        let top = (n + 1).min(most);
        sweep::shift(set, top);
        self.sweep(set, &held[..top]);
        top
    }

    // An output is seen, which stands in this column. The line has the n newest inputs.
    pub(crate) fn sent(&self, set: &mut [u64; 264], held: &[u8; 32], column: u8, n: usize)
        requires { n ≤ 32 }
        ensures { Departure self.now.rows.now self.now.width column self.now.losses n set.old held.now set.new }
    {
        self.send(set, column, n);
        self.sweep(set, &held[..n]);
    }
}

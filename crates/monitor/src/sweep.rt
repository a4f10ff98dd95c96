// The set of configurations, worked on in place: what an event does to it, and then takes and losses from the longest waiting line to
// the shortest. No second set is built; a level, the eight words of one waiting count, goes by value.
ghost use Rattle.std.specs.Prelude.{◌+◌, ◌≤◌, ◌<◌, length};
ghost use Rattle.monitor.specs.Sweep.{Level, Stored, Lowered, SweptFrom, Shifted, SentOn, LoweredTo};

// What moves the states of a set: the rows of a table, each `width` bytes, and how many losses in a row there may be, c.
#[derive(Clone, Copy)]
pub(crate) struct Moves<'a> {
    pub(crate) rows: &'a [u8],
    pub(crate) width: u8,
    pub(crate) losses: u8,
}

// The level of w waiting: its eight words, one for each run.
#[tactic(auto, using(states::proofs::Words::written_none, states::proofs::Words::written_more))]
fn level(set: &[u64; 264], w: usize) -> [u64; 8]
    requires { w ≤ 32 }
    ensures { Level set.now w result }
{
    // Not by chunks, which a feed is slower by.
    let mut x = [0; 8];
    for r in 0..8 {
        x[r] = set[8 * w + r];
    }
    x
}

// The level of w waiting becomes x.
#[tactic(auto, using(states::proofs::Words::written_none, states::proofs::Words::written_more))]
fn store(set: &mut [u64; 264], w: usize, x: [u64; 8])
    requires { w ≤ 32 }
    ensures { Stored w x set.old set.new }
{
    // Not by `copy_from_slice`: whether the two overlap is tested there, and a sweep takes a fifth longer.
    for (r, &word) in x.iter().enumerate() {
        set[8 * w + r] = word;
    }
}

// The level `row` with what is taken and lost from the level `above`.
fn joined(row: [u64; 8], above: [u64; 8], taken: u64, c: usize) -> [u64; 8]
    ensures { LoweredTo row above taken c result }
{
    let mut x = row;
    x[0] |= taken;
    // By number: run r of the one goes with run r - 1 of the other, and r itself is held against c.
    for r in 1..8 {
        x[r] |= if r < c { above[r - 1] } else { 0 };
    }
    x
}

// An input comes: the levels below n go up by one, and nothing is left at waiting 0.
#[tactic(auto, using(crate::proofs::Words::shifted))]
pub(crate) fn shift(set: &mut [u64; 264], n: usize)
    requires { n ≤ 32 }
    ensures { Shifted n set.old set.new }
{
    set.copy_within(..8 * n, 8);
    store(set, 0, [0; 8]);
}

impl Moves<'_> {
    // Takes and losses from the level `above`, that of w + 1 waiting, are put into that of w, which is handed on: what was just stored is not
    // loaded again. The input at the head of the line is a.
    #[tactic(auto, using(crate::proofs::Steps::lowered, crate::proofs::Steps::stored_level))]
    fn lower(&self, set: &mut [u64; 264], w: usize, above: [u64; 8], a: u8) -> [u64; 8]
        requires place { w < 32 }
        requires from { Level set.old (w + 1) above }
        ensures lowered { Lowered self.now.rows.now self.now.width self.now.losses a w set.old set.new }
        ensures level { Level set.new w result }
    {
        let taken = states::image(self.rows, self.width, a, states::union_of(above));
        let x = joined(level(set, w), above, taken, usize::from(self.losses));
        store(set, w, x);
        x
    }

    // Any number of takes and losses, where the inputs that may wait are the line's, oldest first.
    #[tactic(auto, using(crate::proofs::Bridge::swept_none, crate::proofs::Steps::swept_more))]
    pub(crate) fn sweep(&self, set: &mut [u64; 264], line: &[u8])
        requires { length line.now ≤ 32 }
        ensures { SweptFrom self.now.rows.now self.now.width self.now.losses line.now 0 (length line.now) set.old set.new }
    {
        let top = line.len();
        let mut above = level(set, top);
        for w in (0..top).rev() {
            let lowered = self.lower(set, w, above, line[top - w - 1]);
            above = lowered;
        }
    }

    // An output is seen: in the levels up to n every state follows the column.
    pub(crate) fn send(&self, set: &mut [u64; 264], column: u8, n: usize)
        requires { n ≤ 32 }
        ensures { SentOn self.now.rows.now self.now.width column n set.old set.new }
    {
        for w in 0..=n {
            let x = states::sent(level(set, w), self.rows, self.width, column);
            store(set, w, x);
        }
    }
}

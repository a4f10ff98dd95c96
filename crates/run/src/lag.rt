// The plausible set of a run, kept by lag. The lag is how many inputs came after the one last taken (or since the start, while none is):
// each of them was lost or waits, so it is waiting + run. Which of them were lost does not bear on the state, since a loss can be put
// off; so configurations of the same lag have the same states, and a word for each lag, 40 at the most, holds what 264 words would.
ghost use Rattle.std.specs.Prelude.{◌≡◌, ◌↔◌, ℕ, ◌+◌, ◌≤◌, ◌<◌, length, slice_index, EachIndex, MatchOption};
ghost use Rattle.states.specs.In.{In, AnyOf};
ghost use Rattle.states.specs.Rows.{Image};
ghost use Rattle.run.specs.Lag.{Found};

use crate::column::Columns;

// Where the window begins at first, and when it has been moved up.
const TOP: usize = 64;

// What a run goes by, tested and made ready: the columns of its table, the inputs first, how many inputs may wait, and fewer than how many are
// lost in a row.
#[derive(Drop)]
pub(crate) struct Prepared<'a> {
    pub columns: Columns<'a>,
    pub inputs: u8,
    pub outputs: u8,
    pub waiting: usize,
    pub losses: usize,
    ghost wide: { columns.width ≡ inputs + outputs },
    ghost symbols: { (inputs ≤ 16) × (outputs ≤ 16) },
    ghost bounded: { (waiting ≤ 32) × (0 < losses) × (losses ≤ 8) },
}

// The words stand in a window: an input moves its base down by one place and copies nothing. The inputs of the line, of which there are
// `count`, stand beside them, the newest first, so that the head of a line of w + 1 is at place w.
#[derive(Drop)]
pub(crate) struct Window {
    words: [u64; 104],
    line: [u8; 104],
    base: usize,
    pub count: usize,
    ghost low: { base ≤ 64 },
    ghost few: { count ≤ 32 },
}

// The least lag that has a state, and the greatest.
#[derive(Clone, Copy)]
pub(crate) struct Lags {
    pub least: usize,
    pub most: usize,
}

// The states at all lags of a set, and the lags that have one, if any.
#[derive(Clone, Copy)]
pub(crate) struct Tally {
    pub states: u64,
    pub lags: Option<Lags>,
}

// x, if fewer than c are lost.
fn kept(x: u64, lost: usize, c: usize) -> u64
    ensures { (s : ℕ) → In s result ↔ ((lost < c) × In s x) }
{
    if lost < c { x } else { 0 }
}

// The states of all words.
#[tactic(auto, using(states::proofs::Words::any_none, states::proofs::Words::any_more))]
fn states_of(words: &[u64]) -> u64
    ensures { (s : ℕ) → In s result ↔ AnyOf (length words.now) words.now s }
{
    let mut all = 0;
    for &word in words {
        all |= word;
    }
    all
}

// The first word that has a state, and the last.
fn lags_of(words: &[u64]) -> Option<Lags>
    ensures { MatchOption result (EachIndex words.now (λ j. slice_index words.now j ≡ 0)) (Found words.now) }
{
    let least = words.iter().position(|&word| word != 0)?;
    let most = words.iter().rposition(|&word| word != 0)?;
    Some(Lags { least, most })
}

// Every state of the words follows the column.
fn follow(words: &mut [u64], columns: &Columns, column: u8)
    requires { column < columns.now.width }
    ensures { (j t : ℕ) → j < length words.old → In t (slice_index words.new j) ↔ Image columns.now.rows.now columns.now.width column (slice_index words.old j) t }
{
    for word in words.iter_mut() {
        *word = columns.image(column, *word);
    }
}

impl Window {
    ghost use Rattle.std.specs.Prelude.{◌≡◌, ◌↔◌, ℕ, ◌+◌, ◌≤◌, ◌<◌, min, get_or};
    ghost use Rattle.states.specs.In.{In};
    ghost use Rattle.run.specs.Lag.{Within, Drawn, Based, Came, DrawnFrom, Went, PastLags, Tallied};
    ghost use Rattle.run.specs.Window.{First, InTable, SameLine};

    // Before any event state 0 alone is plausible, and nothing came.
    pub(crate) fn first() -> Window
        ensures { First result }
    {
        let mut words = [0u64; 104];
        words[TOP] = 1;
        Window {
            words,
            line: [0u8; 104],
            base: TOP,
            count: 0,
        }
    }

    // The states of the c words from a place on: those of one waiting count, whatever the run.
    fn within(&self, at: usize, c: usize) -> u64
        requires { (at ≤ 96) × (c ≤ 8) }
        ensures { (s : ℕ) → In s result ↔ Within self.now.words at c s }
    {
        let mut all = 0;
        // Always eight steps, so that the compiler unrolls them.
        for (lost, &word) in self.words[at..at + 8].iter().enumerate() {
            all |= kept(word, lost, c);
        }
        all
    }

    // Where a take of input a leads from the waiting count whose words begin at this place.
    // Inlined in both of its callers, so that a run makes no call for an event.
    #[inline(always)]
    #[tactic(auto, using(crate::proofs::Lags::drawn_image))]
    fn drawn(&self, prepared: &Prepared, at: usize, a: u8) -> u64
        requires { (at ≤ 96) × (a < prepared.now.columns.width) }
        ensures { (t : ℕ) → In t result ↔ Drawn prepared.now.columns.rows.now prepared.now.columns.width a prepared.now.losses self.now.words at t }
    {
        prepared.columns.image(a, self.within(at, prepared.losses))
    }

    // AN INPUT

    // There is a place below the base: where there is none, the first 40 words and inputs are put at the top.
    fn based(&mut self)
        ensures { Based self.old.base self.old.words self.old.line self.new.base self.new.words self.new.line × (self.new.count ≡ self.old.count) }
    {
        if self.base == 0 {
            self.words.copy_within(..40, TOP);
            self.line.copy_within(..40, TOP);
            self.base = TOP;
        }
    }

    // Input a comes: every lag is one more, and at lag 0 is what takes it. The set is closed under takes of older inputs, and a loss leaves
    // the lag as it is.
    pub(crate) fn arrived(&mut self, prepared: &Prepared, a: u8)
        requires { a < prepared.now.inputs }
        ensures count { self.new.count ≡ min (self.old.count + 1) prepared.now.waiting }
        ensures came { Came prepared.now.columns.rows.now prepared.now.columns.width prepared.now.losses a self.old.base self.old.words self.old.line self.new.base self.new.words self.new.line }
    {
        self.based();
        let here = self.base - 1;
        self.base = here;
        self.line[here] = a;
        self.words[here] = self.drawn(prepared, here + 1, a);
        self.count = (self.count + 1).min(prepared.waiting);
    }

    // AN OUTPUT

    // Takes, from the longest line to the shortest: at lag w also stands where the head of a line of w + 1 leads when it is taken.
    fn draw(&mut self, prepared: &Prepared, n: usize)
        requires few { n ≤ self.old.count }
        requires in_table { InTable prepared.now.inputs self.old }
        ensures line { SameLine self.old self.new }
        ensures words { DrawnFrom prepared.now.columns.rows.now prepared.now.columns.width prepared.now.losses self.old.line self.old.base n 0 self.old.words self.new.words }
    {
        let base = self.base;
        for w in (0..n).rev() {
            let a = self.line[base + w];
            let x = self.drawn(prepared, base + w + 1, a);
            self.words[base + w] |= x;
        }
    }

    // An output is seen, which stands in this column. Above the lag `most` there is nothing: neither is anything there afterwards.
    pub(crate) fn sent(&mut self, prepared: &Prepared, most: usize, column: u8)
        requires column { column < prepared.now.columns.width }
        requires in_table { InTable prepared.now.inputs self.old }
        requires past_lags { PastLags self.old.words self.old.base (self.old.count + prepared.now.losses) (most + 1) }
        ensures line { SameLine self.old self.new }
        ensures words { Went prepared.now.columns.rows.now prepared.now.columns.width column prepared.now.losses self.old.line self.old.base self.old.count self.old.words self.new.words }
    {
        let past = most + 1;
        follow(
            &mut self.words[self.base..self.base + past],
            &prepared.columns,
            column,
        );
        self.draw(prepared, self.count.min(past));
    }

    // THE TALLY

    // What stands at the lags.
    pub(crate) fn tally(&self, prepared: &Prepared) -> Tally
        ensures { Tallied self.now.words self.now.base (self.now.count + prepared.now.losses) result }
    {
        let words = &self.words[self.base..self.base + self.count + prepared.losses];
        Tally {
            states: states_of(words),
            lags: lags_of(words),
        }
    }
}

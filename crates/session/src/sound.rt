// Whether a session is sound, which is tested at every feed: nothing is believed of a session that comes from elsewhere.
ghost use Rattle.std.specs.Prelude.{◌≡◌, ◌⊎◌, ◌↔◌, ℕ, ◌*◌, ◌+◌, ◌≤◌, ◌<◌, length, get_or};
ghost use Rattle.model.specs.Limits.{most_waiting};
ghost use Rattle.model.specs.Table.{Bounded};
ghost use Rattle.states.specs.Decides.{Decides};
ghost use Rattle.states.specs.In.{Has};
ghost use Rattle.session.specs.Sets.{InCell};
ghost use Rattle.session.specs.Session.{ZeroFrom, CellFits, SetFits, TableSound, HeldSound, FlagFits, Sound, kept};

use crate::{MOST_EVENTS, Session};

// Whether every byte is 0. This fold and the next have no way out but their end, so that the compiler can take many bytes at once; `all`
// leaves at the first that fails, and takes a byte at a time.
fn is_zero(bytes: &[u8]) -> bool
    ensures { Decides result (ZeroFrom 0 bytes.now) }
{
    bytes.iter().fold(0, |all, &byte| all | byte) == 0
}

// Whether every entry is 255 or below states. An entry needs one state more than it names; 255 names none, and needs none.
fn lead_below(entries: &[u8], states: u8) -> bool
    ensures { Decides result ((k : ℕ) → k < length entries.now → (get_or entries.now k 0 ≡ 255 → ⊥) → get_or entries.now k 0 < states) }
{
    entries
        .iter()
        .fold(0u8, |most, &entry| most.max(entry.wrapping_add(1)))
        <= states
}

impl Session {
    // How many inputs are held: B of them, or all seen if fewer.
    pub fn held_count(&self) -> usize
        ensures { result ≡ kept self.now }
    {
        usize::from(self.waiting).min(self.arrived)
    }

    // The table: its counts, its entries, and zeros after its rows.
    fn table_sound(&self) -> bool
        ensures { Decides result (TableSound self.now.rows self.now.states self.now.inputs self.now.outputs) }
    {
        let states = usize::from(self.states);
        let inputs = usize::from(self.inputs);
        let outputs = usize::from(self.outputs);
        if table::counts(states, inputs, outputs).is_err() {
            return false;
        }
        let (entries, rest) = self.rows.split_at(states * (inputs + outputs));
        lead_below(entries, self.states) && is_zero(rest)
    }

    // The bounds: each within its limit.
    fn bounds_sound(&self) -> bool
        ensures { Decides result (Bounded self.now.waiting self.now.losses) }
    {
        table::bounds(usize::from(self.waiting), usize::from(self.losses)).is_ok()
    }

    // For each run the states that it has with fewer than n waiting.
    fn by_run(&self, n: usize) -> [u64; 8]
        requires { n ≤ most_waiting + 1 }
        ensures { (r : ℕ) → r < 8 → (q : ℕ) → Has result r q ↔ ((w : ℕ) × (w < n) × InCell self.now.set w r q) }
    {
        let set = &self.set;
        let mut runs = [0; 8];
        for waiting in 0..n {
            for run in 0..8 {
                runs[run] |= set[8 * waiting + run];
            }
        }
        runs
    }

    // Whether the run r may have the states x.
    fn run_fits(&self, r: usize, x: u64) -> bool
        ensures { Decides result (CellFits x 0 r self.now.states 0 self.now.losses 0) }
    {
        x == 0 || r < usize::from(self.losses) && states::below(x, self.states)
    }

    // Whether each run may have its states.
    fn runs_fit(&self, runs: [u64; 8]) -> bool
        ensures { Decides result ((r : ℕ) → r < 8 → CellFits (get_or runs r 0) 0 r self.now.states 0 self.now.losses 0) }
    {
        runs.iter()
            .enumerate()
            .all(|(run, &word)| self.run_fits(run, word))
    }

    // The set: no state, waiting count or run outside table and bounds, and no waiting count above the inputs seen.
    fn set_fits(&self) -> bool
        requires { self.now.waiting ≤ most_waiting }
        ensures { Decides result (SetFits self.now.set self.now.states self.now.waiting self.now.losses self.now.arrived) }
    {
        let n = self.held_count() + 1;
        self.runs_fit(self.by_run(n)) && states::empty(&self.set[8 * n..])
    }

    // The held inputs: valid, and zeros after them.
    fn held_sound(&self) -> bool
        requires { self.now.waiting ≤ most_waiting }
        ensures { Decides result (HeldSound self.now.held (kept self.now) self.now.inputs) }
    {
        let (held, rest) = self.held.split_at(self.held_count());
        held.iter().all(|&input| input < self.inputs) && is_zero(rest)
    }

    // The flag: below the events seen, and present exactly when the set is empty.
    fn flag_fits(&self) -> bool
        ensures { Decides result (FlagFits self.now.events self.now.set self.now.flag) }
    {
        let found = !states::empty(&self.set);
        match self.flag {
            None => found,
            Some(place) => !found && place < self.events,
        }
    }

    // Whether the session is sound.
    pub fn is_sound(&self) -> bool
        ensures { Decides result (Sound self.now) }
    {
        self.table_sound()
            && self.bounds_sound()
            && self.set_fits()
            && self.held_sound()
            && self.arrived <= self.events
            && self.events <= MOST_EVENTS
            && self.flag_fits()
    }
}

// The same of a session by value.
pub fn sound(s: Session) -> bool
    ensures { Decides result (Sound s) }
{
    s.is_sound()
}

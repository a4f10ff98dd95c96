// A trace, event by event: the set and the line after each, its twelve bytes, and the flag.
ghost use Rattle.std.specs.Prelude.{◌≡◌, ℕ, ◌+◌, ◌*◌, ◌≤◌, ◌<◌, length, get_or, None};
ghost use Rattle.model.specs.Limits.{most_events};
ghost use Rattle.table.specs.Bytes.{symbol_of};
ghost use Rattle.run.specs.Lag.{PastLags};
ghost use Rattle.run.specs.Run.{Followed};
ghost use Rattle.run.specs.Trace.{Stepped, Recorded};
ghost use Rattle.run.specs.Window.{InTable};

use crate::column::{Column, Columns};
use crate::lag::{Lags, Prepared, Window};
use crate::line;
use table::{Rules, Symbol};

// One valid event more. Before it, above the lag `most` there was nothing.
fn step(window: &mut Window, prepared: &Prepared, most: usize, byte: u8)
    requires valid { symbol_of byte prepared.now.inputs prepared.now.outputs ≡ None → ⊥ }
    requires in_table { InTable prepared.now.inputs window.old }
    requires past_lags { PastLags window.old.words window.old.base (window.old.count + prepared.now.losses) (most + 1) }
    ensures { Stepped prepared.now.columns.rows.now prepared.now.inputs prepared.now.outputs prepared.now.waiting prepared.now.losses byte window.old window.new }
{
    match table::event(byte, prepared.inputs, prepared.outputs) {
        Some(Symbol::Input(a)) => window.arrived(prepared, a),
        Some(Symbol::Output(a)) => window.sent(prepared, most, prepared.inputs + a),
        None => {}
    }
}

// The line of the set is written for event k; the answer is its lags, and none where nothing is plausible.
fn recorded(window: &Window, prepared: &Prepared, out: &mut [u8], k: usize) -> Option<Lags>
    requires { (k < most_events) × (12 * k + 12 ≤ length out.old) }
    ensures { Recorded window.now prepared.now.losses k out.old out.new result }
{
    let t = window.tally(prepared);
    let bytes = line::line(t, window.count as u8, prepared.losses as u8);
    line::put(out, 12 * k, bytes);
    t.lags
}

// All events of a trace that passed its tests. The flag falls at the first after which nothing is plausible; from then on nothing is.
pub(crate) fn followed(rules: &Rules, trace: &[u8], out: &mut [u8]) -> Option<usize>
    requires counts { (rules.now.inputs ≤ 16) × (rules.now.outputs ≤ 16) }
    requires bounds { (rules.now.waiting ≤ 32) × (0 < rules.now.losses) × (rules.now.losses ≤ 8) }
    requires room { (length trace.now ≤ most_events) × (12 * length trace.now ≤ length out.old) }
    requires by_index { (k : ℕ) → k < length trace.now → symbol_of (get_or trace.now k 0) rules.now.inputs rules.now.outputs ≡ None → ⊥ }
    ensures { Followed rules.now.rows.now rules.now.inputs rules.now.outputs rules.now.waiting rules.now.losses trace.now out.old out.new result }
{
    let inputs = rules.inputs as u8;
    let outputs = rules.outputs as u8;
    let mut room = [Column::NONE; 32];
    let prepared = Prepared {
        columns: Columns::of(rules.rows, inputs + outputs, &mut room),
        inputs,
        outputs,
        waiting: rules.waiting,
        losses: rules.losses,
    };
    let mut window = Window::first();
    let mut most = 0;
    for (k, &byte) in trace.iter().enumerate() {
        step(&mut window, &prepared, most, byte);
        let Some(lags) = recorded(&window, &prepared, out, k) else {
            line::emptied(out, k + 1, trace.len());
            return Some(k);
        };
        most = lags.most;
    }
    None
}

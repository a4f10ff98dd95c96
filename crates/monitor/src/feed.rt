// Feeding a session one event.
ghost use Rattle.std.specs.Prelude.{◌+◌, ◌<◌};
ghost use Rattle.session.specs.Session.{Sound};
ghost use Rattle.monitor.specs.Feed.{MovedOn, FedTo, Feeds};
ghost use Rattle.model.specs.Limits.{most_events};

use crate::sweep::Moves;
use session::{MOST_EVENTS, Session};
use table::{Refusal, Symbol};

// How a feed of a session by value ends, and the session: as it was, where it was refused.
#[derive(Clone, Copy, PartialEq, Eq)]
pub struct Fed {
    pub test: Result<(), Refusal>,
    pub session: Session,
}

// The session one event later: its set and its held inputs have moved on already; its flag, its count of events and that of inputs follow.
// A flag stays; where there was none and the set is empty, it falls at this event.
fn moved_on(s: &mut Session, arrived: usize)
    requires { s.old.events < most_events }
    ensures { MovedOn s.old s.old.set s.old.held arrived s.new }
{
    let empty = states::empty(&s.set);
    s.flag = s.flag.or(empty.then_some(s.events));
    s.events += 1;
    s.arrived = arrived;
}

// Input a comes, and then any number of takes and losses.
fn arrive(s: &mut Session, a: u8)
    requires { Sound s.old × (s.old.events < most_events) × (a < s.old.inputs) }
    ensures { FedTo s.old a s.new }
{
    let most = usize::from(s.waiting);
    let n = s.held_count();
    let moves = Moves {
        rows: &s.rows,
        width: s.inputs + s.outputs,
        losses: s.losses,
    };
    moves.arrived(&mut s.set, &mut s.held, most, n, a);
    moved_on(s, s.arrived + 1);
}

// Output a is seen, and then any number of takes and losses.
fn send(s: &mut Session, a: u8)
    requires { Sound s.old × (s.old.events < most_events) × (a < s.old.outputs) }
    ensures { FedTo s.old (128 + a) s.new }
{
    let n = s.held_count();
    let moves = Moves {
        rows: &s.rows,
        width: s.inputs + s.outputs,
        losses: s.losses,
    };
    moves.sent(&mut s.set, &s.held, s.inputs + a, n);
    moved_on(s, s.arrived);
}

// The event byte comes to the session where it lies. Any session may come and any byte; where it is refused, since the session is not sound or
// is full, or since it has no such event, the session stays as it was.
#[tactic(auto, using(crate::proofs::Feeding::endings))]
pub fn advance(s: &mut Session, byte: u8) -> Result<(), Refusal>
    ensures { Feeds s.old byte (record { test = result; session = s.new }) }
{
    if !s.is_sound() {
        return Err(Refusal::Unsound);
    }
    let events = s.events;
    if MOST_EVENTS <= events {
        return Err(Refusal::Events(events + 1));
    }
    let Some(symbol) = table::event(byte, s.inputs, s.outputs) else {
        return Err(Refusal::Event(events));
    };
    match symbol {
        Symbol::Input(a) => arrive(s, a),
        Symbol::Output(a) => send(s, a),
    }
    Ok(())
}

// The session after the event byte, by value: a session that is refused is handed back.
pub fn feed(s: Session, byte: u8) -> Fed
    ensures { Feeds s byte result }
{
    let mut session = s;
    let test = advance(&mut session, byte);
    Fed { test, session }
}

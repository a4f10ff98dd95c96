// What a session carries.
use crate::figures::Figures;
use crate::print;
use session::{Session, sound};
use std::io;

// A session of zeros only, with no flag.
const ZEROS: Session = Session {
    states: 0,
    inputs: 0,
    outputs: 0,
    rows: [0; 2048],
    waiting: 0,
    losses: 0,
    set: [0; 264],
    held: [0; 32],
    events: 0,
    arrived: 0,
    flag: None,
};

// States, inputs, outputs, B and c; the set, counts and flag; the held inputs; and `sound` or `zeros`, where the session is.
pub fn view(rt: &impl Print, s: &Session) -> io::Result<()> {
    print::bytes(rt, &[s.states, s.inputs, s.outputs, s.waiting, s.losses])?;
    print::session(rt, s)?;
    print::held(rt, s)?;
    if sound::sound(*s) {
        print!(rt; " sound")?;
    }
    if *s == ZEROS {
        print!(rt; " zeros")?;
    }
    Ok(())
}

// The row's own number, where it begins, and how long it is.
pub fn row(rt: &impl Print, s: &Session, f: &Figures) -> io::Result<()> {
    print::part(rt, &s.rows, f.at(1, 0), f.at(2, 0))
}

// Openings of a table that the line describes, and of the standard box.
use crate::change::put;
use crate::figures::Figures;
use crate::print;
use session::{Opened, Session};
use std::io;
use table::Rules;

// The bytes from which a line takes its rows.
const SPACE: usize = 4096;

// Document 01's table T.
const T: [u8; 6] = [1, 255, 255, 255, 0, 0];

// The opening's session, with the outcome shown.
fn shown(rt: &impl Print, o: &Opened) -> io::Result<Session> {
    print::outcome(rt, o.test, " opened")?;
    Ok(o.session)
}

// Bytes of 255, but for those that the line names from its seventh number on: each place with its byte.
fn marked(f: &Figures) -> [u8; SPACE] {
    let mut rows = [255; SPACE];
    for k in (6..64).step_by(2) {
        put(&mut rows, f.at(k, SPACE), f.byte_at(k + 1));
    }
    rows
}

// States, inputs, outputs, length of the rows, B and c; then the marks.
pub fn open(rt: &impl Print, f: &Figures) -> io::Result<Session> {
    let rows = marked(f);
    let rules = Rules {
        rows: &rows[..f.at(3, 0).min(SPACE)],
        states: f.at(0, 0),
        inputs: f.at(1, 0),
        outputs: f.at(2, 0),
        waiting: f.at(4, 0),
        losses: f.at(5, 0),
    };
    shown(rt, &session::open(&rules))
}

// The standard box's rows with a byte changed, if its place lies in them: B and c; then the place with its byte.
pub fn standard_box(rt: &impl Print, f: &Figures) -> io::Result<Session> {
    let mut rows = standard::rows();
    put(&mut rows, f.at(2, SPACE), f.byte_at(3));
    let rules = Rules {
        rows: &rows,
        states: standard::STATES,
        inputs: standard::INPUTS,
        outputs: standard::OUTPUTS,
        waiting: f.at(0, 0),
        losses: f.at(1, 0),
    };
    shown(rt, &session::open(&rules))
}

// T under these bounds.
pub fn polled(waiting: usize, losses: usize) -> Opened {
    session::open(&Rules {
        rows: &T,
        states: 2,
        inputs: 1,
        outputs: 2,
        waiting,
        losses,
    })
}

// T under B and c.
pub fn table(rt: &impl Print, f: &Figures) -> io::Result<Session> {
    shown(rt, &polled(f.at(0, 0), f.at(1, 0)))
}

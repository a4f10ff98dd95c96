// Whole runs over T, with their results in a buffer of bytes that are all 170 before.
use crate::figures::{self, Figures};
use crate::print;
use std::io;
use table::Rules;

// The most bytes of results that a line may ask for.
const ROOM: usize = 128;

// The longest trace: one event more than a run takes.
const LONGEST: usize = 1048577;

// Document 01's table T, and two bytes more.
const ROWS: [u8; 8] = [1, 255, 255, 255, 0, 0, 255, 255];

// States, inputs, outputs, length of the rows, B, c and the buffer's length are the line's. The flag or the refusal is shown, and the buffer.
fn ran(rt: &impl Print, f: &Figures, trace: &[u8]) -> io::Result<()> {
    let mut space = [170; ROOM];
    let out = &mut space[..f.at(6, 0).min(ROOM)];
    let rules = Rules {
        rows: &ROWS[..f.at(3, 0).min(8)],
        states: f.at(0, 0),
        inputs: f.at(1, 0),
        outputs: f.at(2, 0),
        waiting: f.at(4, 0),
        losses: f.at(5, 0),
    };
    let flag = match run::run(&rules, trace, out) {
        Ok(flag) => {
            print!(rt; " ran")?;
            flag
        }
        Err(r) => {
            print::refused(rt, r)?;
            None
        }
    };
    print::flag(rt, flag)?;
    print::bytes(rt, out)
}

// The trace is written out: the numbers of the line from the eighth on.
pub fn whole(rt: &impl Print, f: &Figures) -> io::Result<()> {
    let events = f.from(7);
    let mut trace = [0; 64];
    for (byte, n) in trace.iter_mut().zip(events) {
        *byte = figures::byte(*n);
    }
    ran(rt, f, &trace[..events.len().min(64)])
}

// A function of its own, since the prover would write the array out where it stands.
fn repeated(byte: u8) -> [u8; LONGEST] {
    [byte; LONGEST]
}

// The trace is one event, many times.
pub fn long(rt: &impl Print, f: &Figures) -> io::Result<()> {
    let trace = repeated(f.byte_at(8));
    ran(rt, f, &trace[..f.at(7, 0).min(LONGEST)])
}

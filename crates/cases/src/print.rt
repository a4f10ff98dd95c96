// Numbers, refusals and sessions on standard output.
use session::Session;
use std::io;
use table::{Refusal, Tell};

// A refusal's number and place, and for number 4 the second place.
pub fn refused(rt: &impl Print, r: Refusal) -> io::Result<()> {
    let t = r.tell();
    print!(rt; " refused {} {}", t.number, t.place)?;
    if t.number == 4 {
        print!(rt; " {}", t.second)?;
    }
    Ok(())
}

// The words for what is not refused, or the refusal.
pub fn outcome(rt: &impl Print, test: Result<(), Refusal>, passed: &str) -> io::Result<()> {
    match test {
        Ok(()) => print!(rt; "{passed}"),
        Err(r) => refused(rt, r),
    }
}

pub fn bytes(rt: &impl Print, b: &[u8]) -> io::Result<()> {
    for byte in b {
        print!(rt; " {byte}")?;
    }
    Ok(())
}

// The n bytes from a place on, or as many as there are.
pub fn part(rt: &impl Print, b: &[u8], from: usize, n: usize) -> io::Result<()> {
    let rest = b.get(from..).unwrap_or(&[]);
    bytes(rt, &rest[..n.min(rest.len())])
}

// The configurations of w waiting and a run of r, by their states.
fn word(rt: &impl Print, states: u64, w: usize, r: usize) -> io::Result<()> {
    for s in 0..64usize {
        if (states >> s) % 2 == 1 {
            print!(rt; " ({s},{w},{r})")?;
        }
    }
    Ok(())
}

// All configurations, in order of waiting, then run, then state.
fn configurations(rt: &impl Print, set: &[u64; 264]) -> io::Result<()> {
    if set.iter().all(|states| *states == 0) {
        print!(rt; " empty")?;
    }
    for (k, states) in set.iter().enumerate() {
        word(rt, *states, k / 8, k % 8)?;
    }
    Ok(())
}

pub fn flag(rt: &impl Print, flag: Option<usize>) -> io::Result<()> {
    match flag {
        None => print!(rt; " flag none"),
        Some(place) => print!(rt; " flag {place}"),
    }
}

// The inputs that a session holds: B of them, or all seen if fewer.
pub fn held(rt: &impl Print, s: &Session) -> io::Result<()> {
    print!(rt; " held")?;
    part(rt, &s.held, 0, s.held_count())
}

// A session's configurations, counts and flag.
pub fn session(rt: &impl Print, s: &Session) -> io::Result<()> {
    configurations(rt, &s.set)?;
    print!(rt; " events {} inputs {}", s.events, s.arrived)?;
    flag(rt, s.flag)
}

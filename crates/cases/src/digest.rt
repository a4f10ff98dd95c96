// A set in few figures: how many configurations there are, and the least and the most of their states, waiting counts and runs.
use crate::print;
use session::Session;
use std::io;

// The count, and the states, waiting counts and runs as bits.
#[derive(Clone, Copy)]
struct Digest {
    count: u32,
    states: u64,
    waiting: u64,
    runs: u64,
}

fn digested(set: &[u64; 264]) -> Digest {
    let mut d = Digest {
        count: 0,
        states: 0,
        waiting: 0,
        runs: 0,
    };
    for (k, states) in set.iter().enumerate() {
        if *states != 0 {
            d.count = d.count.wrapping_add(states.count_ones());
            d.states |= *states;
            d.waiting |= 1 << (k / 8);
            d.runs |= 1 << (k % 8);
        }
    }
    d
}

// The lowest and the highest bit.
fn span(rt: &impl Print, word: &str, bits: u64) -> io::Result<()> {
    let most = bits.checked_ilog2().unwrap_or(0);
    print!(rt; " {word} {} to {most}", bits.trailing_zeros())
}

// The digest of a session, with its flag and the inputs that it holds.
pub fn session(rt: &impl Print, s: &Session) -> io::Result<()> {
    let d = digested(&s.set);
    print!(rt; " configurations {}", d.count)?;
    if d.count != 0 {
        span(rt, "states", d.states)?;
        span(rt, "waiting", d.waiting)?;
        span(rt, "runs", d.runs)?;
    }
    print::flag(rt, s.flag)?;
    print::held(rt, s)
}

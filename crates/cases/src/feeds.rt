// Feeding a session.
use crate::figures::{self, Figures};
use crate::{digest, openings, print};
use monitor::feed;
use session::Session;
use std::io;

// The session after one event. A refusal is shown.
fn after(rt: &impl Print, s: &mut Session, byte: u8) -> io::Result<()> {
    print::outcome(rt, feed::advance(s, byte), "")
}

// The numbers of the line from a place on, one after another.
pub fn fed(rt: &impl Print, s: &mut Session, f: &Figures, from: usize) -> io::Result<()> {
    for n in f.from(from) {
        after(rt, s, figures::byte(*n))?;
    }
    print::session(rt, s)
}

// The case's own number, B and c; then events for T.
pub fn small(rt: &impl Print, s: &mut Session, f: &Figures) -> io::Result<()> {
    *s = openings::polled(f.at(1, 0), f.at(2, 0)).session;
    fed(rt, s, f, 3)
}

pub fn event(rt: &impl Print, s: &mut Session, f: &Figures) -> io::Result<()> {
    after(rt, s, f.last())?;
    digest::session(rt, s)
}

// What becomes of a session that is fed a byte: it goes on, or is handed back.
pub fn offered(rt: &impl Print, s: &Session, byte: u8) -> io::Result<()> {
    let fed = feed::feed(*s, byte);
    match fed.test {
        Ok(()) => print::session(rt, &fed.session),
        Err(r) => {
            print::refused(rt, r)?;
            print!(rt;
                "{}",
                if fed.session == *s {
                    " unchanged"
                } else {
                    " CHANGED"
                }
            )
        }
    }
}

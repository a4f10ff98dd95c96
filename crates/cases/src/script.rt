// A script, line by line.
use crate::figures::Figures;
use crate::{change, feeds, openings, print, runs, view};
use session::Session;
use std::io;

// The byte at a place, or a blank past the end.
fn letter(line: &[u8], at: usize) -> u8 {
    line.get(at).copied().unwrap_or(b' ')
}

// Lines that only look at the session, or at a copy of it, or run on their own.
fn looked(rt: &impl Print, s: &Session, verb: u8, field: u8, f: &Figures) -> io::Result<()> {
    match verb {
        b'v' => view::view(rt, s),
        b'r' => view::row(rt, s, f),
        b'd' => {
            let mut damaged = *s;
            change::change(&mut damaged, field, f);
            feeds::offered(rt, &damaged, f.last())
        }
        b'b' => feeds::offered(rt, s, f.last()),
        b'w' => runs::whole(rt, f),
        b'l' => runs::long(rt, f),
        _ => print!(rt; " ?"),
    }
}

// Lines that leave another session, and the others. The field is the first letter after `change ` or `damage `.
fn done(rt: &impl Print, s: &mut Session, verb: u8, field: u8, f: &Figures) -> io::Result<()> {
    match verb {
        b'o' => *s = openings::open(rt, f)?,
        b's' => *s = openings::standard_box(rt, f)?,
        b'T' => *s = openings::table(rt, f)?,
        b'P' => feeds::small(rt, s, f)?,
        b'f' => feeds::fed(rt, s, f, 0)?,
        b'e' => feeds::event(rt, s, f)?,
        b'c' => {
            change::change(s, field, f);
            view::view(rt, s)?;
        }
        _ => looked(rt, s, verb, field, f)?,
    }
    Ok(())
}

fn case(rt: &impl Print, s: &mut Session, line: &[u8]) -> io::Result<()> {
    rt.write_all(line)?;
    if letter(line, 0) != b'#' {
        print!(rt; ":")?;
        done(
            rt,
            s,
            letter(line, 0),
            letter(line, 7),
            &Figures::read(line),
        )?;
    }
    println!(rt)
}

pub fn run(rt: &impl Print, script: &[u8]) -> io::Result<()> {
    let mut s = openings::polled(1, 1).session;
    for line in script.split_inclusive(|byte| *byte == b'\n') {
        case(rt, &mut s, line.strip_suffix(b"\n").unwrap_or(line))?;
    }
    Ok(())
}

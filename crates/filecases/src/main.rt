// Reads each house file that an argument names, and writes what came of it: one line for buffers with room to spare, then one for
// each pair of lengths at which number 10 may come. A line ends with a digest of each buffer, so that every byte of it shows.
#![tactic(auto)]

use casework::{FILE_ROOM, MARK, digest};
use house::{Contents, Refusal};
use std::{env, io};
use table::Tell;

// More than the most rows and the most events of a file.
const ROW_ROOM: usize = 2100;

const EVENT_ROOM: usize = 4200;

// The numbers with two places: 4, row and column; 20 to 23, block and offset.
fn has_second(number: u8) -> bool {
    matches!(number, 4 | 20..=23)
}

fn refused(rt: &impl Print, r: Refusal) -> io::Result<()> {
    let told = r.tell();
    print!(rt; " refused {} {}", told.number, told.place)?;
    if has_second(told.number) {
        print!(rt; " {}", told.second)?;
    }
    Ok(())
}

fn good(rt: &impl Print, c: Contents) -> io::Result<()> {
    print!(rt;
        " states {} inputs {} outputs {}",
        c.states, c.inputs, c.outputs
    )?;
    print!(rt;
        " B {} c {} source {}",
        c.waiting,
        c.losses,
        u8::from(c.source)
    )?;
    print!(rt; " rows {} events {}", c.rows, c.events)
}

// Reads the file into these buffers, and writes the rest of the line.
fn read(
    rt: &impl Print,
    file: &[u8],
    rows: &mut [u8],
    events: &mut [u8],
) -> io::Result<Result<Contents, Refusal>> {
    let reading = house::read(file, rows, events);
    match reading {
        Ok(c) => good(rt, c)?,
        Err(r) => refused(rt, r)?,
    }
    println!(rt; " digests {} {}", digest(rows), digest(events))?;
    Ok(reading)
}

// Reads the file into buffers of these lengths, which the line tells.
fn within(rt: &impl Print, name: &str, file: &[u8], rows: usize, events: usize) -> io::Result<()> {
    let mut row_space = [MARK; ROW_ROOM];
    let mut event_space = [MARK; EVENT_ROOM];
    print!(rt; "{name} in {rows} {events}")?;
    let row_space = &mut row_space[..rows.min(ROW_ROOM)];
    let event_space = &mut event_space[..events.min(EVENT_ROOM)];
    let _ = read(rt, file, row_space, event_space)?;
    Ok(())
}

// A good file again: in buffers that are just long enough, and in such of which one is too short by a byte.
fn tight(rt: &impl Print, name: &str, file: &[u8], rows: usize, events: usize) -> io::Result<()> {
    within(rt, name, file, rows, events)?;
    if rows > 0 {
        within(rt, name, file, rows - 1, events)?;
    }
    if events > 0 {
        within(rt, name, file, rows, events - 1)?;
    }
    Ok(())
}

// All lines of one file. Number 10 comes last of all, so a file that is refused is refused alike with no buffers at all.
fn file(rt: &impl Print, name: &str, file: &[u8]) -> io::Result<()> {
    let mut rows = [MARK; ROW_ROOM];
    let mut events = [MARK; EVENT_ROOM];
    print!(rt; "{name}")?;
    if let Ok(c) = read(rt, file, &mut rows, &mut events)? {
        tight(rt, name, file, c.rows, c.events)?;
    }
    within(rt, name, file, 0, 0)
}

fn main(rt: HostRuntime) -> io::Result<()> {
    for name in env::args(&rt)?.skip(1) {
        let mut room = [0; FILE_ROOM];
        match casework::read(&rt, name.as_str(), &mut room) {
            Some(bytes) => file(&rt, name.as_str(), bytes)?,
            None => println!(rt; "{name} cannot be opened")?,
        }
    }
    Ok(())
}

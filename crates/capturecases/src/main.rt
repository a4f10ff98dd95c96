// Imports each capture that an argument names, and writes what came of it: one line for a buffer with room to spare, then one for each
// length at which number 10 may come, then what the reader hands out, call by call, and what it says at some places by itself. A line
// that tells of a buffer ends with its digest, so that every byte of it shows.
#![tactic(auto)]

use capture::{Handed, Refusal, reader};
use casework::{FILE_ROOM, MARK, digest};
use std::{env, io};
use table::Tell;

// More than the records of the longest capture among the cases.
const EVENT_ROOM: usize = 520;

fn refused(rt: &impl Print, r: Refusal) -> io::Result<()> {
    let told = r.tell();
    print!(rt; " refused {} {}", told.number, told.place)
}

// IMPORTING

// Imports the capture into this buffer, and writes the rest of the line.
fn import(rt: &impl Print, bytes: &[u8], events: &mut [u8]) -> io::Result<Result<usize, Refusal>> {
    let imported = capture::import(bytes, events);
    match imported {
        Ok(n) => print!(rt; " events {n}")?,
        Err(r) => refused(rt, r)?,
    }
    println!(rt; " digest {}", digest(events))?;
    Ok(imported)
}

// Imports it into a buffer of this length, which the line tells.
fn within(rt: &impl Print, name: &str, bytes: &[u8], room: usize) -> io::Result<()> {
    let mut space = [MARK; EVENT_ROOM];
    print!(rt; "{name} in {room}")?;
    let _ = import(rt, bytes, &mut space[..room.min(EVENT_ROOM)])?;
    Ok(())
}

// A good capture again: in a buffer that is just long enough, and in one that is too short by a byte.
fn tight(rt: &impl Print, name: &str, bytes: &[u8], events: usize) -> io::Result<()> {
    within(rt, name, bytes, events)?;
    if events > 0 {
        within(rt, name, bytes, events - 1)?;
    }
    Ok(())
}

// READING

fn said(rt: &impl Print, handed: Handed) -> io::Result<()> {
    match handed.taken {
        Ok(Some(byte)) => print!(rt; " event {byte}")?,
        Ok(None) => print!(rt; " end")?,
        Err(r) => refused(rt, r)?,
    }
    println!(rt; " then {}", handed.place)
}

// Reads the events into this buffer, one a call, until the reader hands out none, and tells where it is then. Each call is at the place that
// the one before left.
fn called(bytes: &[u8], events: &mut [u8]) -> usize {
    let mut place = 0;
    for event in events {
        let handed = reader::hand(bytes, place);
        place = handed.place;
        match handed.taken {
            Ok(Some(byte)) => *event = byte,
            _ => return place,
        }
    }
    place
}

fn read(rt: &impl Print, name: &str, bytes: &[u8]) -> io::Result<()> {
    let mut events = [MARK; EVENT_ROOM];
    let place = called(bytes, &mut events);
    print!(rt; "{name} read {place} digest {}", digest(&events))?;
    said(rt, reader::hand(bytes, place))
}

fn at(rt: &impl Print, name: &str, bytes: &[u8], place: usize) -> io::Result<()> {
    print!(rt; "{name} at {place}")?;
    said(rt, reader::hand(bytes, place))
}

// All lines of one capture. Number 10 comes last of all, so one that is refused is refused alike with no buffer at all.
fn file(rt: &impl Print, name: &str, bytes: &[u8]) -> io::Result<()> {
    let mut events = [MARK; EVENT_ROOM];
    print!(rt; "{name}")?;
    if let Ok(n) = import(rt, bytes, &mut events)? {
        tight(rt, name, bytes, n)?;
    }
    within(rt, name, bytes, 0)?;
    read(rt, name, bytes)?;
    for place in [1, 2, 1048576, usize::MAX] {
        at(rt, name, bytes, place)?;
    }
    Ok(())
}

fn main(rt: HostRuntime) -> io::Result<()> {
    for name in env::args(&rt)?.skip(1) {
        let mut room = [0; FILE_ROOM];
        match casework::read(&rt, name.as_str(), &mut room) {
            Some(bytes) => file(&rt, name.as_str(), bytes)?,
            None => println!(rt; "{name} cannot be opened")?,
        }
    }
    Ok(())
}

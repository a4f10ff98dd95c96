// A descriptor by its number, as a reader: what the system answered, call by call. The kit's `io` reads one until a buffer is full, the
// input ends or a read fails, and does not tell the last two apart; that the system noted an error does. Where an error is noted before, from
// other calls, a number from 0 up that is not open for reading is told as an input that ends at once.
ghost use Rattle.std.specs.Prelude.{◌≡◌, MatchResult};
ghost use Rattle.intake.specs.Descriptors.{ToldNext};

use std::io::{Error, ErrorKind, Read, Result};
use std_io::io::last_error;

// The system's number of the error that a call on no open descriptor notes.
const NOT_OPEN: i32 = 9;

// What a read comes upon after its bytes is told at the next, and no call is made for it. That the descriptor is not open is told at every read
// from then on: once it is noted, another call would not show it.
#[derive(Drop)]
pub struct Descriptor {
    number: i32,
    // The end or a failure that a read came upon after the bytes that it gave. None: more bytes, as far as is known.
    then: Option<Result<()>>,
}

impl Descriptor {
    pub fn new(number: i32) -> Descriptor {
        Descriptor { number, then: None }
    }

    // Tells an end, of which no bytes come, or a failure.
    fn tell(&mut self, told: Result<()>) -> Result<usize>
        ensures answer { MatchResult told (λ _. result ≡ Ok 0) (λ e. result ≡ Err e) }
        ensures number { self.new.number ≡ self.old.number }
        ensures then { ToldNext told self.new.then }
    {
        self.then = after(told);
        told.map(|()| 0)
    }
}

// Sees to it that a failed read shows, and answers what is noted then: no error, which every failed read replaces, or else one that no read of a
// descriptor that is open for reading notes.
fn mark() -> i32 {
    if last_error().raw_os_error() == Some(0) {
        return 0;
    }
    let mut none = [0u8; 1];
    io::read_full(-1, &mut none);
    NOT_OPEN
}

// What a read came upon that did not fill its buffer, where this was noted before it: the end, or a failure.
fn came_upon(noted: i32) -> Result<()> {
    let e = last_error();
    if e.raw_os_error() == Some(noted) {
        Ok(())
    } else {
        Err(e)
    }
}

// What is told at the reads after this was told.
fn after(told: Result<()>) -> Option<Result<()>>
    ensures { ToldNext told result }
{
    match told {
        Err(e) if e.raw_os_error() == Some(NOT_OPEN) => Some(told),
        _ => None,
    }
}

impl Read for Descriptor {
    fn read(&mut self, buf: &mut [u8]) -> Result<usize> {
        if let Some(told) = self.then {
            return self.tell(told);
        }
        if self.number < 0 {
            return Err(Error::from(ErrorKind::InvalidInput));
        }
        let noted = mark();
        let n = io::read_full(self.number, &mut *buf);
        if n == buf.len() {
            return Ok(n);
        }
        let told = came_upon(noted);
        if n == 0 {
            return self.tell(told);
        }
        self.then = Some(told);
        Ok(n)
    }
}

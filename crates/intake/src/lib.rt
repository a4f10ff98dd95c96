// Input that is read to its end, however long it is. What fits in the caller's buffer is kept, and the rest is counted, so that an input
// that is too long is told with its true length.
#![tactic(auto)]

ghost use Rattle.std.specs.Prelude.{◌≡◌, replicate};
ghost use Rattle.io.specs.Counts.{IsPrefixLen};
ghost use Rattle.intake.specs.Inputs.{counted, is_whole, input_of, Keeps};

use std::ops::ControlFlow;

mod descriptor;

pub use descriptor::Descriptor;

// One byte more than the longest house file, so that a file that is too long shows.
const FILE_ROOM: usize = 7681;

// So many reads, of 4,096 bytes at most, are the most that are made of what does not fit: 4 exbibytes, far above any file.
const MOST_READS: usize = 1125899906842624;

// What came of an input: how many bytes of it were kept, and how many it has; or, where it was not read to its end, how many came.
#[derive(Clone, Copy)]
pub struct Input {
    pub kept: usize,
    pub length: Result<usize, usize>,
}

// Room for a house file, and zeros in it.
pub fn file_room() -> [u8; FILE_ROOM]
    ensures { result ≡ replicate 7681 0 }
{
    [0; FILE_ROOM]
}

// One read, of which nothing is kept but how many bytes came, none of them at the end. There is no number where it failed.
fn next<R: std::io::Read>(input: &mut R) -> Option<usize> {
    input.read(&mut io::buffer()).ok()
}

// The count after one read more; or the input is over, with the count, or with none where the read failed.
fn count(total: usize, read: Option<usize>) -> ControlFlow<Option<usize>, usize>
    ensures { result ≡ counted total read }
{
    match read {
        None => ControlFlow::Break(None),
        Some(0) => ControlFlow::Break(Some(total)),
        Some(bytes) => ControlFlow::Continue(total.saturating_add(bytes)),
    }
}

// Reads to the end, keeps nothing, and tells how many bytes came; no number, if a read failed.
fn rest<R: std::io::Read>(input: &mut R) -> Option<usize> {
    let mut total = 0;
    for _ in 0..MOST_READS {
        match count(total, next(input)) {
            ControlFlow::Continue(more) => total = more,
            ControlFlow::Break(ended) => return ended,
        }
    }
    None
}

// Whether an input was read whole, of which n bytes were kept, in so much room, and then so many came. One that ended and then went on
// was not: what came between was not kept.
fn is_whole(n: usize, room: usize, more: usize) -> bool
    ensures { result ≡ is_whole n room more }
{
    more == 0 || n == room
}

// What came of an input of which n bytes were kept, in so much room, and then so many came; or a read failed.
fn told(n: usize, room: usize, rest: Option<usize>) -> Input
    ensures { result ≡ input_of n room rest }
{
    let length = match rest {
        Some(more) if is_whole(n, room, more) => Ok(n.saturating_add(more)),
        Some(more) => Err(n.saturating_add(more)),
        None => Err(n),
    };
    Input { kept: n, length }
}

// Reads until the buffer is full, the input ends or a read fails, and tells how many bytes stand at the buffer's start. A read gives as many as
// it will, so that no `for` knows their number before.
fn fill<R: std::io::Read>(input: &mut R, buffer: &mut [u8]) -> usize
    ensures { IsPrefixLen result buffer.new }
{
    let mut done = 0;
    while done < buffer.len() {
        match input.read(&mut buffer[done..]) {
            Ok(0) | Err(_) => break,
            Ok(n) => done += n,
        }
    }
    done
}

// Reads an input to its end; what fits stands at the start of the buffer.
pub fn keep_from<R: std::io::Read>(input: &mut R, buffer: &mut [u8]) -> Input
    ensures { Keeps buffer.new result }
{
    let n = fill(input, &mut *buffer);
    told(n, buffer.len(), rest(input))
}

// The same of an input that a descriptor gives.
pub fn keep(fd: i32, buffer: &mut [u8]) -> Input
    ensures { Keeps buffer.new result }
{
    keep_from(&mut Descriptor::new(fd), buffer)
}

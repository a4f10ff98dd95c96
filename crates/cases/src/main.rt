// Runs a script of cases on the monitor. Standard input has a case a line; the program writes each line again, and after a colon what
// came out of it. A line that begins with # is a heading.
//
// The first letter of a line says what is done, and the numbers of the line, in their order, with what: the other words are for its
// reader. An output's symbol, as o1, counts as its event byte, 129. The lines work on one session, which the last opening gave:
//
//     open states 2 inputs 1 outputs 2 rows 6 B 2 c 1 byte 0 is 1 byte 4 is 0    all other bytes of the rows are 255
//     standard box B 4 c 3 byte 565 is 64                                        at most one byte changed
//     T B 2 c 1               document 01's table T
//     P2 B 2 c 1 i0           T opened, and fed event by event
//     feed i0 o0              fed event by event; then the configurations as (state,waiting,run), by waiting, run and state
//     event i0                one event, and a digest of the set
//     view                    what the session carries, and whether it is sound
//     row 17 from 544 for 32  the bytes of a row of the session
//     change events 2         one field changed from now on (change.rt names the fields)
//     damage events 2, byte 0 a copy with one field changed is fed the byte
//     byte 16                 a copy is fed the byte
//     whole states 2 inputs 1 outputs 2 rows 6 B 2 c 1 room 26 trace i0 o0       a run over T by itself, and its result buffer
//     long states 2 inputs 1 outputs 2 rows 6 B 2 c 1 room 2 trace of 9 times i0
//
// What it must write is in the file `stdout`, which `tests/oracle.py` works out from document 01 alone.
#![tactic(auto)]

mod change;
mod digest;
mod feeds;
mod figures;
mod openings;
mod print;
mod runs;
mod script;
mod view;

// A script has at most 65,536 bytes.
fn main(rt: HostRuntime) -> std::io::Result<()> {
    let mut space = io::large_buffer();
    let came = intake::keep_from(&mut rt.stdin(), &mut space);
    script::run(&rt, &space[..came.kept])
}

// What is to be said of a file: why it is refused, or what a run over its trace found.
ghost use Rattle.std.specs.Prelude.{◌≡◌, length, take};
ghost use Rattle.lister.specs.Judging.{row_room, rows_meant, Follows, Judges};

use house::{Contents, MOST_EVENTS, MOST_ROWS, Refusal, Source};
use lent::front;
use table::Rules;

// The most bytes that a run over a file's events writes.
pub(crate) const RESULT_ROOM: usize = 12 * MOST_EVENTS;

// How many events the file has, and the flag, if any; or why it is refused.
pub(crate) type Judged = Result<(usize, Option<usize>), Refusal>;

fn follow<'a>(c: Contents, rows: &'a [u8], events: &'a [u8], results: &mut [u8]) -> Judged
    ensures { Follows c rows.now (take c.events events.now) results.old result results.new }
{
    let rules = Rules {
        rows,
        states: usize::from(c.states),
        inputs: usize::from(c.inputs),
        outputs: usize::from(c.outputs),
        waiting: usize::from(c.waiting),
        losses: usize::from(c.losses),
    };
    let flag = run::run(&rules, front(events, c.events), results)?;
    Ok((c.events, flag))
}

// Puts the standard box's rows into the room for a file's own, where they are meant, and tells how many bytes there are meant. No other room
// is taken for them.
fn settle(source: Source, n: usize, rows: &mut [u8]) -> usize
    requires { length rows.old ≡ row_room }
    ensures { take result rows.new ≡ rows_meant source (take n rows.old) }
{
    match source {
        Source::Rows => n,
        Source::Standard => {
            lent::put(&standard::rows(), rows, 0);
            MOST_ROWS
        }
    }
}

fn follow_source(c: Contents, rows: &mut [u8], events: &[u8], results: &mut [u8]) -> Judged
    requires { length rows.old ≡ row_room }
    ensures { Follows c (rows_meant c.source (take c.rows rows.old)) (take c.events events.now) results.old result results.new }
{
    let n = settle(c.source, c.rows, &mut *rows);
    follow(c, front(rows, n), events, results)
}

// Reads the file, and runs its trace; the events and the run's results go into the buffers.
pub(crate) fn judge(file: &[u8], events: &mut [u8], results: &mut [u8]) -> Judged
    ensures { Judges file.now events.old results.old result events.new results.new }
{
    let mut rows = [0u8; MOST_ROWS];
    let c = house::read(file, &mut rows, &mut *events)?;
    follow_source(c, &mut rows, events, results)
}

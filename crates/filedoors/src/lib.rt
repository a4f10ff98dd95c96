// Whole traces and whole files for programs in other languages: runs, the reader of house files, and the listing, into memory or from one
// descriptor to another. Numbers and lent slices only. A slice is passed as its address, which may be null where the count is 0, and its
// count of elements. No slice that is written to lies over another. Nothing else is asked: every function answers every input. It answers
// false exactly when the memory lent for its results, or for a listing, is too short, and then nothing is written; a refusal is an answer
// of true, with its number in the results. The listing to a descriptor has no results, and answers a number. specs/Results.antt says what
// the results are, and specs/Doors.antt what each function does.
#![tactic(auto)]

ghost use Rattle.std.specs.Prelude.{◌≡◌, ◌&&◌, ◌≤◌, leb};
ghost use Rattle.lister.specs.Putting.{text_room};
ghost use Rattle.filedoors.specs.Results.{listing_size};
ghost use Rattle.filedoors.specs.Doors.{Running, Read, Listing, outcome_number};

use house;
use lister::Outcome;
use table::Rules;

mod results;

// A whole run over a trace: for each event twelve bytes in `out`, and the flag's place in the results.
#[unsafe(no_mangle)]
pub extern "C" fn rillmoth_run<'a>(
    rows: &'a [u8],
    states: usize,
    inputs: usize,
    outputs: usize,
    waiting: usize,
    losses: usize,
    trace: &'a [u8],
    out: &mut [u8],
    told: &mut [u64],
) -> bool
    ensures { Running rows.now states inputs outputs waiting losses trace.now out.old told.old result out.new told.new }
{
    if told.len() < results::RUN {
        return false;
    }
    let rules = Rules {
        rows,
        states,
        inputs,
        outputs,
        waiting,
        losses,
    };
    let ran = run::run(&rules, trace, out);
    lent::put(&results::of_run(ran), told, 0);
    true
}

// Reads a house file: its rows and its events to the starts of two buffers, and what it holds into the results.
#[unsafe(no_mangle)]
pub extern "C" fn rillmoth_read(
    file: &[u8],
    rows: &mut [u8],
    events: &mut [u8],
    told: &mut [u64],
) -> bool
    ensures { Read file.now rows.old events.old told.old result rows.new events.new told.new }
{
    if told.len() < results::READ {
        return false;
    }
    let reading = house::read(file, rows, events);
    lent::put(&results::of_read(reading), told, 0);
    true
}

// Whether memory of these lengths has room for every listing and for its results.
fn roomy(out: usize, told: usize) -> bool
    ensures { result ≡ (leb text_room out && leb listing_size told) }
{
    lister::LISTING_ROOM <= out && results::LISTING <= told
}

// Puts the listing of a house file at the start of `out`. The file has this length; of one that is longer than 7,680 bytes, any start that
// is longer too will do. `out` has room for every listing, or nothing is put.
#[unsafe(no_mangle)]
pub extern "C" fn rillmoth_listing(
    file: &[u8],
    length: usize,
    out: &mut [u8],
    told: &mut [u64],
) -> bool
    ensures { Listing file.now length out.old told.old result out.new told.new }
{
    if !roomy(out.len(), told.len()) {
        return false;
    }
    let summary = lister::text(file, length, out);
    lent::put(&results::of_listing(summary), told, 0);
    true
}

// What a listing came to, as a number.
fn outcome(o: Outcome) -> u8
    ensures value { result ≡ outcome_number o }
    ensures upper_bound { result ≤ 3 }
{
    match o {
        Outcome::Consistent => 0,
        Outcome::Flagged => 1,
        Outcome::Refused => 2,
        Outcome::Broken => 3,
    }
}

// Lists the house file that one descriptor gives to its end; the listing goes to the other. 0: consistent; 1: flagged; 2: refused; 3: the
// input could not be read or the listing not written. A call of the system that fails, whatever the reason, is not made again; so a signal
// that interrupts it and a descriptor that is not ready count as failures.
#[unsafe(no_mangle)]
pub extern "C" fn rillmoth_list(input: i32, output: i32) -> u8
    ensures { result ≤ 3 }
{
    outcome(lister::list(input, output))
}

// The results in words that are lent: a refusal's number and places, and then what else a function answers.
ghost use Rattle.std.specs.Prelude.{◌≡◌, ◌^◌, ◌<◌};
ghost use Rattle.house.specs.Refusals.{results};
ghost use Rattle.figures.specs.Figures.{flag_word};
ghost use Rattle.run.specs.Ran.{flag_of};
ghost use Rattle.filedoors.specs.Results.{run_results, read_results, listing_results};

use house::{Contents, Refusal, Source};
use lister::Summary;
use table::Told;

// How many words the results of a run, of a read and of a listing are.
pub(crate) const RUN: usize = 4;

pub(crate) const READ: usize = 11;

pub(crate) const LISTING: usize = 6;

// What a file holds; zeros, where it was refused.
fn held(reading: Result<Contents, Refusal>) -> Contents
    ensures { result ≡ results reading }
{
    match reading {
        Ok(c) => c,
        Err(_) => Contents {
            states: 0,
            inputs: 0,
            outputs: 0,
            waiting: 0,
            losses: 0,
            source: Source::Rows,
            rows: 0,
            events: 0,
        },
    }
}

// The results of a run. A refused one tells no flag.
pub(crate) fn of_run(ran: Result<Option<usize>, table::Refusal>) -> [u64; 4]
    requires { flag_word (flag_of ran) < 2 ^ 64 }
    ensures { result ≡ run_results ran }
{
    let t = Told::of(ran);
    let f = figures::flag_word(ran.unwrap_or(None));
    [u64::from(t.number), t.place as u64, t.second as u64, f]
}

// The results of a read. A refused one tells nothing of the file but its refusal.
pub(crate) fn of_read(reading: Result<Contents, Refusal>) -> [u64; 11]
    ensures { result ≡ read_results reading }
{
    let t = Told::of(reading);
    let c = held(reading);
    [
        u64::from(t.number),
        t.place as u64,
        t.second as u64,
        u64::from(c.states),
        u64::from(c.inputs),
        u64::from(c.outputs),
        u64::from(c.waiting),
        u64::from(c.losses),
        u64::from(u8::from(c.source)),
        c.rows as u64,
        c.events as u64,
    ]
}

// The results of a listing.
pub(crate) fn of_listing(summary: Summary) -> [u64; 6]
    requires { flag_word summary.flag < 2 ^ 64 }
    ensures { result ≡ listing_results summary }
{
    let t = summary.told;
    let f = figures::flag_word(summary.flag);
    [
        u64::from(t.number),
        t.place as u64,
        t.second as u64,
        summary.bytes as u64,
        summary.events as u64,
        f,
    ]
}

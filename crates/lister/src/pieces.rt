// The pieces of a listing, a line each: the header, a line an event and the last line, or the one line of a refused file.
// specs/Listing.antt says which bytes they are.
ghost use Rattle.std.specs.Prelude.{◌≡◌, ◌≤◌};
ghost use Rattle.lister.specs.Listing.{event_room, twelve_of, line_at, run_piece, piece_of, true_length};
ghost use Rattle.lister.specs.Listing.{events_in, pieces_of, verdict_of, outcome_of};
ghost use Rattle.lister.specs.Putting.{refusal_told, flag_told};

use super::Outcome;
use super::judge::Judged;
use house::Refusal;
use lines::Text;
use table::{Tell, Told};

// What the listing of a file is made of: how the file is judged, its length, its events and the results of the run over them.
#[derive(Clone, Copy)]
pub(crate) struct Listing<'a> {
    pub(crate) judged: Judged,
    pub(crate) length: usize,
    pub(crate) events: &'a [u8],
    pub(crate) results: &'a [u8],
}

// The twelve bytes of event k among a run's results; none, where there are not so many.
fn twelve(results: &[u8], k: usize) -> &[u8]
    ensures { result.now ≡ twelve_of results.now k }
{
    results.chunks_exact(12).nth(k).unwrap_or(&[])
}

// A file that is too long is told with its true length, of which only a part was kept.
fn true_length(r: Refusal, length: usize) -> Refusal
    ensures { result ≡ true_length r length }
{
    match r {
        Refusal::Length(_) => Refusal::Length(length),
        other => other,
    }
}

fn verdict(flag: Option<usize>) -> Outcome
    ensures { result ≡ verdict_of flag }
{
    match flag {
        None => Outcome::Consistent,
        Some(_) => Outcome::Flagged,
    }
}

impl Listing<'_> {
    // The line of event k.
    fn line(&self, k: usize) -> Text
        ensures { result ≡ line_at self.now.events.now self.now.results.now k }
    {
        lines::event(k, lines::byte(self.events, k), twelve(self.results, k))
    }

    // Piece k of the listing of a run over n events.
    fn of_run(&self, n: usize, flag: Option<usize>, k: usize) -> Text
        ensures { result ≡ run_piece n flag self.now.events.now self.now.results.now k }
    {
        if k == 0 {
            return lines::first();
        }
        if k <= n {
            return self.line(k - 1);
        }
        lines::last(flag)
    }

    // Piece k, and all of it.
    pub(crate) fn piece(&self, k: usize) -> Text
        ensures { result ≡ piece_of self.now.judged self.now.length self.now.events.now self.now.results.now k }
    {
        match self.judged {
            Err(r) => lines::refused(true_length(r, self.length).tell()),
            Ok((n, flag)) => self.of_run(n, flag, k),
        }
    }

    // How many pieces there are.
    pub(crate) fn pieces(&self) -> usize
        requires { events_in self.now.judged ≤ event_room }
        ensures { result ≡ pieces_of self.now.judged }
    {
        self.judged.map_or(1, |(n, _)| n + 2)
    }

    // What the last line says.
    pub(crate) fn outcome(&self) -> Outcome
        ensures { result ≡ outcome_of self.now.judged }
    {
        match self.judged {
            Err(_) => Outcome::Refused,
            Ok((_, flag)) => verdict(flag),
        }
    }

    // The number and the places of the refusal; zeros, where there is none.
    pub(crate) fn refusal(&self) -> Told
        ensures { result ≡ refusal_told self.now.judged self.now.length }
    {
        match self.judged {
            Err(r) => true_length(r, self.length).tell(),
            Ok(_) => Told::NOTHING,
        }
    }

    // How many events are listed; none, where the file is refused.
    pub(crate) fn count(&self) -> usize
        ensures { result ≡ events_in self.now.judged }
    {
        self.judged.map_or(0, |(n, _)| n)
    }

    // The flag, if any.
    pub(crate) fn flag(&self) -> Option<usize>
        ensures { result ≡ flag_told self.now.judged }
    {
        match self.judged {
            Err(_) => None,
            Ok((_, flag)) => flag,
        }
    }
}

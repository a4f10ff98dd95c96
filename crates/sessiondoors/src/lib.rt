// Sessions for programs in other languages: numbers and lent slices only. A slice is passed as its address, which may be null where the
// count is 0, and its count of elements. No slice that is written to lies over another. Nothing else is asked: every function answers every
// input. It answers false exactly when memory lent for a session or for results is shorter than its layout, and then nothing is written; a
// refusal is an answer of true, with its number in the results, and writes nothing else. specs/Layout.antt says how a session lies in
// memory, and specs/Doors.antt what the results are and what each function does.
#![tactic(auto)]

ghost use Rattle.std.specs.Prelude.{◌≡◌, ◌&&◌, leb};
ghost use Rattle.sessiondoors.specs.Layout.{session_words, session_bytes};
ghost use Rattle.sessiondoors.specs.Doors.{test_size, test_results, Opens, Feeding};

use monitor::feed;
use table::{Refusal, Rules, Told};

mod layout;

// How many words the results of opening and feeding are.
const TEST: usize = 3;

// Which of them is a refusal's number: 0 where nothing is refused.
const NUMBER: usize = 0;

// Whether memory of these lengths has room for a session and for the results of opening and feeding.
fn roomy(words: usize, bytes: usize, told: usize) -> bool
    ensures { result ≡ (leb session_words words && (leb session_bytes bytes && leb test_size told)) }
{
    layout::WORDS <= words && layout::BYTES <= bytes && TEST <= told
}

// The results of opening and feeding.
fn of_test(test: Result<(), Refusal>) -> [u64; 3]
    ensures { result ≡ test_results test }
{
    let told = Told::of(test);
    [
        u64::from(told.number),
        told.place as u64,
        told.second as u64,
    ]
}

// Opens a session in the memory lent. Where it is refused, the results alone are written: a session that lies there goes on.
#[unsafe(no_mangle)]
pub extern "C" fn rillmoth_open(
    rows: &[u8],
    states: usize,
    inputs: usize,
    outputs: usize,
    waiting: usize,
    losses: usize,
    words: &mut [u64],
    bytes: &mut [u8],
    told: &mut [u64],
) -> bool
    ensures { Opens rows.now states inputs outputs waiting losses words.old bytes.old told.old result words.new bytes.new told.new }
{
    if !roomy(words.len(), bytes.len(), told.len()) {
        return false;
    }
    let rules = Rules {
        rows,
        states,
        inputs,
        outputs,
        waiting,
        losses,
    };
    let opened = session::open(&rules);
    let results = of_test(opened.test);
    lent::put(&results, told, 0);
    if results[NUMBER] != 0 {
        return true;
    }
    layout::put_words(words, &opened.session);
    layout::put_bytes(bytes, &opened.session);
    true
}

// Feeds the session that lies in the memory lent one event, and leaves there what it became: where it was refused, what it was.
#[unsafe(no_mangle)]
pub extern "C" fn rillmoth_feed(
    words: &mut [u64],
    bytes: &mut [u8],
    byte: u8,
    told: &mut [u64],
) -> bool
    ensures { Feeding words.old bytes.old byte told.old result words.new bytes.new told.new }
{
    if !roomy(words.len(), bytes.len(), told.len()) {
        return false;
    }
    let mut s = layout::session_in(words, bytes);
    let test = feed::advance(&mut s, byte);
    layout::put_words(words, &s);
    layout::put_held(bytes, &s.held);
    lent::put(&of_test(test), told, 0);
    true
}

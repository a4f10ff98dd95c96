// A session in memory that is lent: 267 words and 2,085 bytes, read and written.
ghost use Rattle.std.specs.Prelude.{◌≡◌, ◌^◌, ◌≤◌, ◌<◌, length, take};
ghost use Rattle.lent.specs.Lent.{front, put_at};
ghost use Rattle.figures.specs.Figures.{flag_word};
ghost use Rattle.sessiondoors.specs.Layout.{session_words, session_bytes, words_of, bytes_of, session_in};

use session::Session;

pub(crate) const WORDS: usize = 267;

pub(crate) const BYTES: usize = 2085;

// Where the held inputs begin, and the counts and bounds after them; and the counts of events, after the set.
const HELD: usize = 2048;

const COUNTS: usize = 2080;

const SEEN: usize = 264;

// READING

// The first elements, as many as the array has.
fn first<T: Copy, const N: usize>(elements: &[T]) -> [T; N]
    requires { N ≤ length elements.now }
    ensures { result ≡ take N elements.now }
{
    *<&[T; N]>::try_from(&elements[..N]).unwrap()
}

// The session that the words and the bytes are.
pub(crate) fn session_in(words: &[u64], bytes: &[u8]) -> Session
    requires { (session_words ≤ length words.now) × (session_bytes ≤ length bytes.now) }
    ensures value { result ≡ session_in words.now bytes.now }
    ensures flag_bound { flag_word result.flag < 2 ^ 64 }
{
    let set = first(words);
    let rows = first(bytes);
    let held = first(&bytes[HELD..COUNTS]);
    let flag = figures::flag_in(words[SEEN + 2]);
    Session {
        states: bytes[COUNTS],
        inputs: bytes[COUNTS + 1],
        outputs: bytes[COUNTS + 2],
        rows,
        waiting: bytes[COUNTS + 3],
        losses: bytes[COUNTS + 4],
        set,
        held,
        events: words[SEEN] as usize,
        arrived: words[SEEN + 1] as usize,
        flag,
    }
}

// WRITING

// Puts a session's words at the start of the memory; the rest of it stays.
pub(crate) fn put_words(words: &mut [u64], s: &Session)
    requires { (session_words ≤ length words.old) × (flag_word s.now.flag < 2 ^ 64) }
    ensures { words.new ≡ front words.old (words_of s.now) }
{
    let flag = figures::flag_word(s.flag);
    let seen = [s.events as u64, s.arrived as u64, flag];
    lent::put(&s.set, words, 0);
    lent::put(&seen, words, SEEN);
}

// Puts a session's bytes at the start of the memory; the rest of it stays.
pub(crate) fn put_bytes(bytes: &mut [u8], s: &Session)
    requires { session_bytes ≤ length bytes.old }
    ensures { bytes.new ≡ front bytes.old (bytes_of s.now) }
{
    let counts = [s.states, s.inputs, s.outputs, s.waiting, s.losses];
    // A copy of these few: of bytes that lie in a session, the compiler would keep a second session on the stack.
    let held = s.held;
    lent::put(&s.rows, bytes, 0);
    lent::put(&held, bytes, HELD);
    lent::put(&counts, bytes, COUNTS);
}

// Puts held inputs at their place; the rest of the memory stays. Of a session's bytes a feed changes no others: to put them all back would
// take a second copy of the rows.
pub(crate) fn put_held(bytes: &mut [u8], held: &[u8; 32])
    requires { session_bytes ≤ length bytes.old }
    ensures { bytes.new ≡ put_at bytes.old 2048 held.now }
{
    lent::put(held, bytes, HELD);
}

// The lines of a listing as bytes. Each function answers every input with the one line that specs/Lines.antt defines, and all of it.
#![tactic(auto)]

ghost use Rattle.std.specs.Prelude.{◌≡◌, ◌∷◌, ◌++◌, get_or};
ghost use Rattle.lines.specs.Texts.{Adds, decimal, hexadecimal};
ghost use Rattle.lines.specs.Lines.{space, symbol, states_in, pair, has_second, second_place};
ghost use Rattle.lines.specs.Lines.{header, event_line, last_line, refused_line};

use table::Told;

mod text;

pub use text::Text;

// The listing's first line.
const HEADER: &[u8] = b"event symbol states waiting run\n";

// Byte i; past the end, 0.
pub fn byte(bytes: &[u8], i: usize) -> u8
    ensures { result ≡ get_or bytes.now i 0 }
{
    bytes.get(i).copied().unwrap_or(0)
}

// The plausible states, as a number: the first eight of the twelve bytes.
fn states(twelve: &[u8]) -> u64
    ensures { result ≡ states_in twelve.now }
{
    u64::from_le_bytes(std::array::from_fn(|i| byte(twelve, i)))
}

// i or o with the symbol.
fn push_symbol(line: &mut Text, b: u8)
    ensures { Adds line.old (space ∷ symbol b) line.new }
{
    line.push(b' ');
    if b < 128 {
        line.push(b'i');
        line.push_decimal(u64::from(b));
    } else {
        line.push(b'o');
        line.push_decimal(u64::from(b - 128));
    }
}

// Least and most; with no states, a dash.
fn push_pair(line: &mut Text, states: u64, least: u8, most: u8)
    ensures { Adds line.old (space ∷ pair states least most) line.new }
{
    line.push(b' ');
    match states {
        0 => line.push(b'-'),
        _ => {
            line.push_decimal(u64::from(least));
            line.push(b'-');
            line.push_decimal(u64::from(most));
        }
    }
}

fn push_number(line: &mut Text, n: u64)
    ensures { Adds line.old (space ∷ decimal n) line.new }
{
    line.push(b' ');
    line.push_decimal(n);
}

fn push_states(line: &mut Text, states: u64)
    ensures { Adds line.old (space ∷ hexadecimal states) line.new }
{
    line.push(b' ');
    line.push_hexadecimal(states);
}

// The first line of a listing.
pub fn first() -> Text
    ensures { result ≡ header }
{
    let mut line = Text::new();
    line.push_all(HEADER);
    line
}

// The line of event k, of this byte and these twelve bytes of a run's results.
pub fn event(k: usize, b: u8, twelve: &[u8]) -> Text
    ensures { result ≡ event_line k b twelve.now }
{
    let states = states(twelve);
    let mut line = Text::new();
    line.push_decimal(k as u64);
    push_symbol(&mut line, b);
    push_states(&mut line, states);
    push_pair(&mut line, states, byte(twelve, 8), byte(twelve, 9));
    push_pair(&mut line, states, byte(twelve, 10), byte(twelve, 11));
    line.push(b'\n');
    line
}

// The last line of a listing.
pub fn last(flag: Option<usize>) -> Text
    ensures { result ≡ last_line flag }
{
    let mut line = Text::new();
    match flag {
        None => line.push_all(b"consistent"),
        Some(place) => {
            line.push_all(b"flagged");
            push_number(&mut line, place as u64);
        }
    }
    line.push(b'\n');
    line
}

// Whether a refusal has a second place: the column of number 4, the offset of 20 to 23.
fn has_second(number: u8) -> bool
    ensures { result ≡ has_second number }
{
    matches!(number, 4 | 20..=23)
}

// The only line of a refused file.
pub fn refused(told: Told) -> Text
    ensures { result ≡ refused_line told }
{
    let mut line = Text::new();
    line.push_all(b"refused");
    push_number(&mut line, u64::from(told.number));
    push_number(&mut line, told.place as u64);
    if has_second(told.number) {
        push_number(&mut line, told.second as u64);
    }
    line.push(b'\n');
    line
}

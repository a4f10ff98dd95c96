// A session with one field changed, as it may come from elsewhere.
use crate::figures::Figures;
use session::Session;

// Puts the byte at a place, if there is such a place.
pub fn put(bytes: &mut [u8], at: usize, byte: u8) {
    if let Some(place) = bytes.get_mut(at) {
        *place = byte;
    }
}

// The configuration (state, w, r) is put into the set, if there is a place for it.
fn insert(set: &mut [u64; 264], state: usize, w: usize, r: usize) {
    if w < 33 && r < 8 && state < 64 {
        set[8 * w + r] |= 1 << state;
    }
}

// The field by its first letter, with the numbers of the line.
pub fn change(s: &mut Session, field: u8, f: &Figures) {
    let n = f.at(0, 0);
    let byte = f.byte_at(0);
    match field {
        // states, inputs and outputs of the table, B, c
        b's' => s.states = byte,
        b'i' => s.inputs = byte,
        b'o' => s.outputs = byte,
        b'B' => s.waiting = byte,
        b'c' => s.losses = byte,
        // row byte 6 is 1; held byte 2 is 1
        b'r' => put(&mut s.rows, n, f.byte_at(1)),
        b'h' => put(&mut s.held, n, f.byte_at(1)),
        // with (0,2,0); none: no configuration at all
        b'w' => insert(&mut s.set, n, f.at(1, 33), f.at(2, 8)),
        b'n' => s.set = [0; 264],
        // events and arrived: the counts of events and of inputs
        b'e' => s.events = n,
        b'a' => s.arrived = n,
        // flag 3; unflagged
        b'f' => s.flag = Some(n),
        b'u' => s.flag = None,
        _ => {}
    }
}

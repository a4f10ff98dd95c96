// A box's rules as they are given.

// The rows of a table, its counts, and the bounds B and c, of which nothing need be known.
#[derive(Clone, Copy)]
pub struct Rules<'a> {
    pub rows: &'a [u8],
    pub states: usize,
    pub inputs: usize,
    pub outputs: usize,
    pub waiting: usize,
    pub losses: usize,
}

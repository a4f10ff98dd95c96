// The columns of a table, ready to take images of sets of states. Most columns leave states where they are and move others on by one
// distance, modulo 64: those states are kept as two masks, and their image is two turns of a word. What else a column allows is led state
// by state.
ghost use Rattle.std.specs.Prelude.{◌≡◌, ◌↔◌, ℕ, ◌+◌, ◌*◌, ◌%◌, ◌≤◌, ◌<◌};
ghost use Rattle.states.specs.In.{In};
ghost use Rattle.states.specs.Rows.{byte_at, Image};
ghost use Rattle.run.specs.Column.{Turned, Sorted, SortedTo, Ready, Ready-prop};

// A column: the states that move on by one distance, those that move on by another, and the rest of those that it allows.
#[derive(Clone, Copy)]
pub(crate) struct Column {
    near: u64,
    near_by: u32,
    far_by: u32,
    far: u64,
    rest: u64,
}

// The columns of the rows, each `width` bytes.
#[derive(Drop)]
pub(crate) struct Columns<'a> {
    rows: &'a [u8],
    width: u8,
    columns: &'a [Column; 32],
    ghost narrow: { width ≤ 32 },
    ghost ready: { Ready rows.now width width columns.now } by { Ready-prop rows.now width width columns.now },
}

// The states of x, each d further, modulo 64.
#[tactic(auto, using(crate::proofs::Columns::turned_by))]
fn turned(x: u64, d: u32) -> u64
    requires { d < 64 }
    ensures { (t : ℕ) → In t result ↔ Turned x d t }
{
    x.rotate_left(d)
}

// How far it is from s to t, modulo 64.
fn distance(s: u8, t: u8) -> u32
    requires { (s < 64) × (t < 64) }
    ensures { (result < 64) × ((s + result) % 64 ≡ t) }
{
    u32::from((64 + t - s) % 64)
}

impl Column {
    // No states.
    pub(crate) const NONE: Column = Column {
        near: 0,
        near_by: 0,
        far_by: 0,
        far: 0,
        rest: 0,
    };

    // The column with state s, which leads to t, or nowhere where t is 64 or more.
    fn sorted(self, s: u8, t: u8) -> Column
        requires { s < 64 }
        ensures { SortedTo self s t result }
    {
        if 64 <= t {
            return self;
        }
        let by = distance(s, t);
        let one = 1u64 << s;
        // The first distance is 0 from the start: the states that stay, mostly the most. They never fall to the rest.
        if self.near_by == by {
            Column {
                near: self.near | one,
                ..self
            }
        } else if self.far == 0 || self.far_by == by {
            Column {
                far: self.far | one,
                far_by: by,
                ..self
            }
        } else {
            Column {
                rest: self.rest | one,
                ..self
            }
        }
    }

    // The column of the rows, each `width` bytes.
    fn of(rows: &[u8], width: u8, column: u8) -> Column
        ensures { Sorted rows.now width column 64 result }
    {
        let mut x = Column::NONE;
        for s in 0..64 {
            x = x.sorted(s, states::byte(rows, width, column, s));
        }
        x
    }
}

impl<'a> Columns<'a> {
    // All columns of a table, made in this room.
    pub(crate) fn of(rows: &'a [u8], width: u8, room: &'a mut [Column; 32]) -> Columns<'a>
        requires { width ≤ 32 }
        ensures { (result.rows.now ≡ rows.now) × (result.width ≡ width) }
    {
        for k in 0..width {
            room[usize::from(k)] = Column::of(rows, width, k);
        }
        Columns {
            rows,
            width,
            columns: room,
        }
    }

    // Where the column leads from states that it allows, each by a look at its row.
    fn led(&self, column: u8, from: u64) -> u64
        requires in_table { column < self.now.width }
        requires by_index { (s : ℕ) → In s from → byte_at self.now.rows.now self.now.width column s < 64 }
        ensures { (t : ℕ) → In t result ↔ Image self.now.rows.now self.now.width column from t }
    {
        let mut out = 0;
        let mut left = from;
        while let Some(s) = states::least(left) {
            left &= left - 1;
            let t = self.rows[s as usize * self.width as usize + column as usize];
            out |= 1u64 << t;
        }
        out
    }

    // Where the column leads from the states of a set.
    pub(crate) fn image(&self, column: u8, from: u64) -> u64
        requires { column < self.now.width }
        ensures { (t : ℕ) → In t result ↔ Image self.now.rows.now self.now.width column from t }
    {
        let x = self.columns[usize::from(column)];
        let near = turned(from & x.near, x.near_by);
        let far = turned(from & x.far, x.far_by);
        let rest = from & x.rest;
        if rest == 0 {
            return near | far;
        }
        near | far | self.led(column, rest)
    }
}

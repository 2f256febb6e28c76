// A stretch of columns as a chunk: the bytes of one role in the w columns from i on.
//
// Here and in the crates above, a geometry and a stripe stay two parameters: the public functions take any two, and a struct with
// a `&mut [u8]` would owe, in each function that sets bytes, that the geometry and the borrow are the same after it.
#![tactic(auto)]

ghost use Rattle.std.specs.Prelude.{false, ◌≡◌, ◌+◌, ◌-◌, min, ltb, length, MatchOption};
ghost use Rattle.chunk.specs.Chunk.{each};
ghost use Rattle.stretch.specs.Stretch.{has_columns, column_of, has_stretch, set_on, PlacedAt};

use chunk::WIDTH;
use shape::Geometry;

// Whether a stripe with n data disks has a role.
pub fn has_role(n: usize, role: usize) -> bool
    ensures { result ≡ ltb role (n + 2) }
{
    role < n || role - n < 2
}

// Where w columns begin that follow the first `done` of b; the last begin earlier, so that they fit.
pub fn next_start(b: usize, w: usize, done: usize) -> usize
    ensures { result ≡ min done (b - w) }
{
    done.min(b.saturating_sub(w))
}

// The w columns from i on, whether a stripe has them or not.
#[derive(Clone, Copy)]
pub struct Stretch {
    pub g: Geometry,
    pub i: usize,
    pub w: usize,
}

impl Stretch {
    // Whether a buffer of this length is a stripe with these columns, and a chunk can hold them.
    pub fn is_in(self, len: usize) -> bool
        ensures { result ≡ has_columns self.g len self.i self.w }
    {
        let Stretch { g, i, w } = self;
        shape::encode_refusal(g, len).is_ok() && w <= g.b && i <= g.b - w && w <= WIDTH
    }

    // The bytes of a role in these columns, with 00 behind them and for what the stripe has not.
    pub fn load(self, stripe: &[u8], role: usize) -> [u8; WIDTH]
        ensures { result ≡ each (λ j. column_of self.g stripe.now self.i self.w j role) }
    {
        match self.place(stripe, role) {
            Some(at) => chunk::load(&stripe[at..at + self.w]),
            None => [0u8; WIDTH],
        }
    }

    // Sets them, if the stripe has them. Only the stretch is lent on, so that nothing around it can change.
    pub fn set(self, stripe: &mut [u8], role: usize, new: [u8; WIDTH])
        ensures { stripe.new ≡ set_on self.g role self.i self.w new stripe.old }
    {
        if let Some(at) = self.place(stripe, role) {
            chunk::store(&mut stripe[at..at + self.w], new);
        }
    }

    // Where the bytes of a role in these columns begin, if the stripe has them.
    fn place(self, stripe: &[u8], role: usize) -> Option<usize>
        ensures { MatchOption result (has_stretch self.g (length stripe.now) role self.i self.w ≡ false) (PlacedAt self.g stripe.now role self.i self.w) }
    {
        if !self.is_on(stripe.len(), role) {
            return None;
        }
        Some(self.g.start(role) + self.i)
    }

    fn is_on(self, len: usize, role: usize) -> bool
        ensures { result ≡ has_stretch self.g len role self.i self.w }
    {
        self.is_in(len) && has_role(self.g.n, role)
    }
}

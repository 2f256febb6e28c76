// A chunk: WIDTH bytes of a block at once, worked on place by place. A loop over the places has a
// fixed length, so that it becomes vector code. One that writes goes by the place: of what is written through
// an `iter_mut` in a `zip`, the proof would know the length alone.
#![tactic(auto)]

ghost use Rattle.std.specs.Prelude.{◌≡◌, get_or};
ghost use Rattle.chunk.specs.Chunk.{width, each, stored, plus, double_plus, all_zero};

use gf256::Element;

// The number of columns that are worked on at a time.
pub const WIDTH: usize = 128;

// The first WIDTH bytes, with 00 for those that are missing. Here and in `store` the part way has a chunk
// of its own, so that a whole chunk can stay in registers; the 00 stored last keeps the compiler from
// making one copy of unknown length of both ways.
pub fn load(from: &[u8]) -> [u8; WIDTH]
    ensures { result ≡ each (λ j. get_or from.now j 0) }
{
    if from.len() < WIDTH {
        let mut part = [0u8; WIDTH];
        part[..from.len()].copy_from_slice(from);
        part[from.len()] = 0;
        return part;
    }
    let mut to = [0u8; WIDTH];
    to.copy_from_slice(&from[..WIDTH]);
    to
}

// Puts as many bytes of a chunk as there is room for.
pub fn store(to: &mut [u8], c: [u8; WIDTH])
    ensures { to.new ≡ stored to.old c }
{
    if to.len() < WIDTH {
        let part = c;
        to.copy_from_slice(&part[..to.len()]);
    } else {
        to[..WIDTH].copy_from_slice(&c);
    }
}

// a + d.
pub fn add(a: &mut [u8; WIDTH], d: &[u8; WIDTH])
    ensures { a.new ≡ plus a.old d.now }
{
    for j in 0..WIDTH {
        a[j] = Element(a[j]).sum(Element(d[j])).0;
    }
}

// Both sums of a chunk of columns: P and Q, P* and Q*, or the sums over some of the disks.
#[derive(Clone, Copy)]
pub struct Sums {
    pub p: [u8; WIDTH],
    pub q: [u8; WIDTH],
}

impl Sums {
    // Those of no disk.
    pub const ZERO: Sums = Sums {
        p: [0; WIDTH],
        q: [0; WIDTH],
    };

    // One more disk: p + d, and by Horner's rule 02 q + d.
    pub fn add_disk(&mut self, d: &[u8; WIDTH])
        ensures { (self.new.p ≡ plus self.old.p d.now) × (self.new.q ≡ double_plus self.old.q d.now) }
    {
        for i in 0..WIDTH {
            let x = Element(d[i]);
            self.p[i] = Element(self.p[i]).sum(x).0;
            self.q[i] = Element(self.q[i]).double().sum(x).0;
        }
    }

    // Two more disks, the higher one first: p + d + e, and by Horner's rule (equation 21)
    // 02 (02 q + d) + e. Both are read before the first step.
    pub fn add_two_disks(&mut self, d: &[u8; WIDTH], e: &[u8; WIDTH])
        ensures { (self.new.p ≡ plus (plus self.old.p d.now) e.now) × (self.new.q ≡ double_plus (double_plus self.old.q d.now) e.now) }
    {
        for j in 0..WIDTH {
            let x = Element(d[j]);
            let y = Element(e[j]);
            self.p[j] = Element(self.p[j]).sum(x).sum(y).0;
            self.q[j] = Element(self.q[j]).double().sum(x).double().sum(y).0;
        }
    }
}

// Whether both are 00 at every place. They need not be the sums of one chunk: of one alone it is asked twice.
pub fn are_zero(p: &[u8; WIDTH], q: &[u8; WIDTH]) -> bool
    ensures { result ≡ all_zero p.now q.now }
{
    let mut r = 0;
    for (x, y) in p.iter().zip(q) {
        r = r | x | y;
    }
    r == 0
}

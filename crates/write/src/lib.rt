// Small writes to a stripe: a stretch of one data disk is set, and what changed is added to P and Q. `g` and `stripe` stay two
// parameters, as in `stretch`.
#![tactic(auto)]

ghost use Rattle.std.specs.Prelude.{◌≡◌, ◌+◌, ◌<◌, ◌≤◌, length, get_or};
ghost use Rattle.gf256.specs.Field.{power};
ghost use Rattle.column.specs.Column.{reed_solomon, write_column};
ghost use Rattle.shape.specs.Number.{number};
ghost use Rattle.shape.specs.Refusals.{WellShaped};
ghost use Rattle.shape.specs.Columns.{ColumnsMapped};
ghost use Rattle.stretch.specs.Stretch.{Has};
ghost use Rattle.write.specs.Write.{WriteCall};

use chunk::{Sums, WIDTH};
use gf256::Element;
use shape::{Geometry, Refusal};
use stretch::Stretch;

// Sets a stretch of one data disk, and adds what changed to P and Q, also where the stripe is not
// encoded.
pub fn write(
    g: Geometry,
    stripe: &mut [u8],
    disk: usize,
    offset: usize,
    new: &[u8],
) -> Result<(), Refusal>
    ensures { WriteCall g disk offset new.now stripe.old (number result) stripe.new }
{
    shape::write_refusal(g, stripe.len(), disk, offset, new.len())?;
    write_all(g, stripe, disk, offset, new);
    Ok(())
}

fn write_all(g: Geometry, stripe: &mut [u8], disk: usize, offset: usize, new: &[u8])
    requires { WellShaped g stripe.old × (offset + length new.now ≤ g.b) × (disk < g.n) }
    ensures { ColumnsMapped g offset (length new.now) (λ j col. write_column reed_solomon g.n disk (get_or new.now j 0) col) stripe.old stripe.new }
{
    let c = Element(2).power(disk as u64);
    let chunks = new.len() / WIDTH;
    for k in 0..chunks {
        let j = WIDTH * k;
        write_columns(g, stripe, disk, offset + j, c, &new[j..j + WIDTH]);
    }
    let j = WIDTH * chunks;
    if j < new.len() {
        write_columns(g, stripe, disk, offset + j, c, &new[j..]);
    }
}

// The columns of a stretch that a chunk can hold; c is the disk's coefficient. P and Q after the write are
// there before a byte is stored. It is written into its two calls, so that the compiler knows the width of a
// whole chunk.
#[inline(always)]
fn write_columns(g: Geometry, stripe: &mut [u8], disk: usize, i: usize, c: Element, new: &[u8])
    requires { Has g stripe.old i (length new.now) × (disk < g.n) × (c.0 ≡ power 2 disk) }
    ensures { ColumnsMapped g i (length new.now) (λ j col. write_column reed_solomon g.n disk (get_or new.now j 0) col) stripe.old stripe.new }
{
    // The columns are there. Tested once here, they cost no test in the six calls below.
    let at = Stretch { g, i, w: new.len() };
    if !at.is_in(stripe.len()) {
        return;
    }
    let old = at.load(stripe, disk);
    let p = at.load(stripe, g.n);
    let q = at.load(stripe, g.n + 1);
    let new = chunk::load(new);
    let after = change::changed(c, old, new, Sums { p, q });
    let p = after.p;
    let q = after.q;
    at.set(stripe, g.n + 1, q);
    at.set(stripe, g.n, p);
    at.set(stripe, disk, new);
}

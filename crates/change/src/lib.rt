// What a change of a disk's bytes makes of P and Q, a chunk at a time.
#![tactic(auto)]

ghost use Rattle.std.specs.Prelude.{◌≡◌};
ghost use Rattle.change.specs.Changed.{changed_by};

use chunk::{Sums, WIDTH};
use gf256::Element;

// P and Q of a chunk after the bytes of a disk with the coefficient c change from old to new.
pub fn changed(c: Element, old: [u8; WIDTH], new: [u8; WIDTH], parities: Sums) -> Sums
    ensures { result ≡ changed_by c.0 old new parities }
{
    let mut change = old;
    chunk::add(&mut change, &new);
    let mut parities = parities;
    chunk::add(&mut parities.p, &change);
    products::add_product(&mut parities.q, c, change);
    parities
}

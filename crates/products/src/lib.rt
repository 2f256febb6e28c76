// Products of chunks with elements, place by place.
#![tactic(auto)]

ghost use Rattle.std.specs.Prelude.{◌≡◌, get_or};
ghost use Rattle.gf256.specs.Field.{double};
ghost use Rattle.chunk.specs.Chunk.{each};
ghost use Rattle.products.specs.Products.{plus_product, plus_bit, combined};

use chunk::WIDTH;
use gf256::Element;

// a + c x, by c's bits from the lowest up. The loop counts nothing: it ends with the highest one.
pub fn add_product(a: &mut [u8; WIDTH], c: Element, x: [u8; WIDTH])
    ensures { a.new ≡ plus_product a.old c.0 x }
{
    let mut c = c.0;
    let mut x = x;
    while c != 0 {
        if c % 2 == 1 {
            chunk::add(a, &x);
        }
        double(&mut x);
        c = c / 2;
    }
}

// a p + b q, by the bits of both multipliers from the highest down, with one doubling for each two bits.
pub fn combine(a: Element, p: [u8; WIDTH], b: Element, q: [u8; WIDTH]) -> [u8; WIDTH]
    ensures { result ≡ combined a.0 p b.0 q }
{
    let mut d = [0u8; WIDTH];
    for k in (0..8u8).rev() {
        add_bits(&mut d, a.0 >> k, &p, b.0 >> k, &q);
    }
    d
}

// 02 d, and x where the lowest bit of m is one, and y where that of n is. It goes by the place, as the loops of `chunk` that write.
fn add_bits(d: &mut [u8; WIDTH], m: u8, x: &[u8; WIDTH], n: u8, y: &[u8; WIDTH])
    ensures { d.new ≡ each (λ j. plus_bit (plus_bit (double (get_or d.old j 0)) m (get_or x.now j 0)) n (get_or y.now j 0)) }
{
    for j in 0..WIDTH {
        let z = Element(d[j]).double();
        let z = add_bit(z, m, Element(x[j]));
        d[j] = add_bit(z, n, Element(y[j])).0;
    }
}

fn add_bit(z: Element, m: u8, x: Element) -> Element
    ensures { result.0 ≡ plus_bit z.0 m x.0 }
{
    if m % 2 == 1 { z.sum(x) } else { z }
}

// 02 x.
pub fn double(x: &mut [u8; WIDTH])
    ensures { x.new ≡ each (λ j. double (get_or x.old j 0)) }
{
    for v in x.iter_mut() {
        *v = Element(*v).double().0;
    }
}

// The field GF(2^8) of the paper's section 1: bytes as polynomials over two elements, modulo
// x^8 + x^4 + x^3 + x^2 + 1. An element is a kind of its own, so that bytes, disk numbers and
// exponents cannot be mixed.
#![tactic(auto)]

mod logarithm_table;
mod power_table;
mod split_tables;

ghost use Rattle.std.specs.Prelude.{◌≡◌, ◌≢◌, ◌<◌};
ghost use Rattle.gf256.specs.Field.{sum, double, product, power, inverse, logarithm, ExponentOf};

use logarithm_table::LOGARITHMS;
use power_table::POWERS;
use split_tables::split_product;

#[derive(Clone, Copy, PartialEq, Eq, Debug)]
pub struct Element(pub u8);

impl Element {
    pub fn sum(self, other: Element) -> Element
        ensures { result.0 ≡ sum self.0 other.0 }
    {
        Element(self.0 ^ other.0)
    }

    // Times 02.
    #[tactic(auto, using(crate::proofs::Product::double_shift))]
    pub fn double(self) -> Element
        ensures { result.0 ≡ double self.0 }
    {
        let x = self.0;
        Element(((x % 128) * 2) ^ (x / 128 * 0x1d))
    }

    // By the split tables of the first factor.
    pub fn product(self, other: Element) -> Element
        ensures { result.0 ≡ product self.0 other.0 }
    {
        Element(split_product(self.0, other.0))
    }

    // Exponents of a nonzero element count modulo 255.
    #[tactic(auto, using(crate::proofs::Powers::power_none, crate::proofs::Powers::power_zero, crate::proofs::Powers::power_by_exponent))]
    pub fn power(self, exponent: u64) -> Element
        ensures { result.0 ≡ power self.0 exponent }
    {
        if exponent == 0 {
            return Element(1);
        }
        if self.0 == 0 {
            return Element(0);
        }
        power_of_two(exponent_of(self) * (exponent % 255) % 255)
    }

    // None for 00 alone. The inverse of 02^e is 02^(255 - e); the exponent 255, of 01, is no place of the
    // table and counts as 0.
    #[tactic(auto, using(crate::proofs::Powers::exponent_below, crate::proofs::Powers::inverse_by_logarithm, crate::proofs::Powers::inverse_without))]
    pub fn inverse(self) -> Option<Element>
        ensures { result ≡ inverse self.0 }
    {
        let exponent = self.logarithm()?;
        Some(power_of_two((255 - exponent) % 255))
    }

    // To base 02, an exponent below 255. None for 00 alone.
    #[tactic(auto, using(crate::proofs::Powers::logarithm_zero, crate::proofs::Powers::logarithm_is))]
    pub fn logarithm(self) -> Option<u64>
        ensures { result ≡ logarithm self.0 }
    {
        if self.0 == 0 {
            return None;
        }
        Some(exponent_of(self))
    }
}

fn power_of_two(exponent: u64) -> Element
    requires { exponent < 255 }
    ensures { result.0 ≡ power 2 exponent }
{
    Element(POWERS[exponent as usize])
}

// The exponent below 255 of the power of 02 that x is.
fn exponent_of(x: Element) -> u64
    requires { x.0 ≢ 0 }
    ensures { ExponentOf x.0 result }
{
    LOGARITHMS[(x.0 - 1) as usize] as u64
}

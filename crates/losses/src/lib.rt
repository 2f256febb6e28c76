// How lost roles are restored: they are taken as 00, and the lost bytes are solved from P* and Q* of
// that column by a rule.
#![tactic(auto)]

ghost use Rattle.std.specs.Prelude.{◌≡◌};
ghost use Rattle.losses.specs.Losses.{is_one_of, solutions};

use chunk::{Sums, WIDTH};
use gf256::Element;

// Two lost roles. What asks for sums without fewer gives one twice, or such as no stripe has.
#[derive(Clone, Copy)]
pub struct Pair {
    pub x: usize,
    pub y: usize,
}

impl Pair {
    // Whether a role is one of them.
    pub fn has(self, role: usize) -> bool
        ensures { result ≡ is_one_of self role }
    {
        role == self.x || role == self.y
    }
}

// How the bytes of two lost roles come from P* and Q*, here p and q.
#[derive(Clone, Copy)]
pub enum Rule {
    // The first is a p + b q, the second what is left of p: equations 19 and 20, and with a = 00
    // equation 5.
    Mixed(Element, Element),
    // The first is p, the second q + c p: equation 1, then equation 2.
    Carried(Element),
}

// What a loss asks for.
#[derive(Clone, Copy)]
pub enum Plan {
    // One role by equation 1 alone.
    ByP(usize),
    // Q as the data give it and, where true, P. It stays a flag: what goes by it makes one test, and for two
    // plans there would be two of each of those functions.
    FromData(bool),
    // Two roles, the first of them data, by both sums and a rule.
    ByBoth(Pair, Rule),
}

// The new bytes of the two lost roles in a chunk.
#[derive(Clone, Copy)]
pub struct Restored {
    pub first: [u8; WIDTH],
    pub second: [u8; WIDTH],
}

// The lost bytes at each place, by the rule.
pub fn solve(rule: Rule, sums: Sums) -> Restored
    ensures { result ≡ solutions rule sums }
{
    let Sums { p, q } = sums;
    match rule {
        Rule::Mixed(a, b) => {
            let mut first = [0u8; WIDTH];
            products::add_product(&mut first, a, p);
            products::add_product(&mut first, b, q);
            let mut second = p;
            chunk::add(&mut second, &first);
            Restored { first, second }
        }
        Rule::Carried(c) => {
            let mut second = q;
            products::add_product(&mut second, c, p);
            Restored { first: p, second }
        }
    }
}

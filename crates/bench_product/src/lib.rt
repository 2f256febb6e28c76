// The field's product, exported for the bench alone, which calls it from outside. No premise is put on the caller.
#![tactic(auto)]

ghost use Rattle.std.specs.Prelude.{◌≡◌};
ghost use Rattle.gf256.specs.Field.{product};

use gf256::Element;

#[unsafe(no_mangle)]
pub extern "C" fn bench_product(a: u8, b: u8) -> u8
    ensures { result ≡ product a b }
{
    Element(a).product(Element(b)).0
}

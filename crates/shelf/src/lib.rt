// What the shelf's controller, written in C, calls: include/shelf.h says it in C's terms. Every
// number that is passed is 64 bits wide, and no premise is put on the caller. C has none of Rattle's
// enums, so a refusal is told by its number, 0 for none, and a device is named by its code.
#![tactic(auto)]

ghost use Rattle.std.specs.Prelude.{◌≡◌};
ghost use Rattle.stripe.specs.Calls.{EncodeCall, RebuildNamedCall, RepairCall};
ghost use Rattle.write.specs.Write.{WriteCall};
ghost use Rattle.shape.specs.Layout.{geometry};
ghost use Rattle.shelf.specs.Check.{ShelfCheckCall};

use shape::Geometry;

// What C's two numbers describe.
fn geometry(n: u64, b: u64) -> Geometry
    ensures { result ≡ geometry n b }
{
    Geometry {
        n: n as usize,
        b: b as usize,
    }
}

#[unsafe(no_mangle)]
pub extern "C" fn shelf_encode(n: u64, b: u64, stripe: &mut [u8]) -> u8
    ensures { EncodeCall (geometry n b) stripe.old result stripe.new }
{
    shape::number(stripe::encode(geometry(n, b), stripe))
}

#[unsafe(no_mangle)]
pub extern "C" fn shelf_write(
    n: u64,
    b: u64,
    stripe: &mut [u8],
    disk: u64,
    offset: u64,
    bytes: &[u8],
) -> u8
    ensures { WriteCall (geometry n b) disk offset bytes.now stripe.old result stripe.new }
{
    let g = geometry(n, b);
    shape::number(write::write(g, stripe, disk as usize, offset as usize, bytes))
}

#[unsafe(no_mangle)]
pub extern "C" fn shelf_rebuild(n: u64, b: u64, stripe: &mut [u8], first: u64, second: u64) -> u8
    ensures { RebuildNamedCall (geometry n b) first second stripe.old result stripe.new }
{
    let g = geometry(n, b);
    shape::number(stripe::rebuild_named(g, stripe, first as usize, second as usize))
}

#[unsafe(no_mangle)]
pub extern "C" fn shelf_check(
    n: u64,
    b: u64,
    stripe: &[u8],
    verdicts: &mut [u16],
    summary: &mut u16,
) -> u8
    ensures { ShelfCheckCall (geometry n b) stripe.now verdicts.old summary.old result verdicts.new summary.new }
{
    match stripe::check(geometry(n, b), stripe, verdicts) {
        Ok(found) => {
            *summary = found;
            0
        }
        Err(refusal) => u8::from(refusal),
    }
}

#[unsafe(no_mangle)]
pub extern "C" fn shelf_repair(n: u64, b: u64, stripe: &mut [u8]) -> u8
    ensures { RepairCall (geometry n b) stripe.old result stripe.new }
{
    shape::number(stripe::repair(geometry(n, b), stripe))
}

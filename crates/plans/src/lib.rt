// What a rebuild asks for: its refusal, or the plan of its loss, which is the row of the table of
// losses.
#![tactic(auto)]

ghost use Rattle.std.specs.Prelude.{◌≡◌, ◌≢◌, ◌≤◌, ◌<◌};
ghost use Rattle.gf256.specs.Field.{power};
ghost use Rattle.column.specs.Column.{over_power};
ghost use Rattle.column.specs.Loss.{KnownLoss};
ghost use Rattle.shape.specs.Number.{numbered};
ghost use Rattle.plans.specs.Plans.{alone, with_data, plan_of, asked_of, mixed};

use column::{Device, Lost};
use gf256::Element;
use losses::{Pair, Plan, Rule};
use shape::{Geometry, Refusal};

// What a rebuild asks for: its refusal, or else the plan of its loss.
pub fn plan_of(g: Geometry, len: usize, lost: Lost) -> Result<Plan, Refusal>
    ensures { numbered result ≡ asked_of g len lost }
{
    devices::rebuild_refusal(g, len, lost)?;
    match lost {
        Lost::One(device) => Ok(alone(g.n, device)),
        Lost::Two(first, second) => Ok(together(g.n, first, second)),
    }
}

// One lost device.
fn alone(n: usize, lost: Device) -> Plan
    ensures { result ≡ alone n lost }
{
    match lost {
        Device::Data(x) => Plan::ByP(x),
        Device::P => Plan::ByP(n),
        Device::Q => Plan::FromData(false),
    }
}

// Two lost devices, in either order.
fn together(n: usize, first: Device, second: Device) -> Plan
    requires { (n ≤ 255) × KnownLoss n (Lost.Two first second) }
    ensures { result ≡ plan_of n (Lost.Two first second) }
{
    match (first, second) {
        (Device::Data(x), other) => with_data(n, x, other),
        (other, Device::Data(x)) => with_data(n, x, other),
        _ => Plan::FromData(true),
    }
}

// Data disk x and another device.
fn with_data(n: usize, x: usize, other: Device) -> Plan
    requires { (n ≤ 255) × KnownLoss n (Lost.Two (Device.Data x) other) }
    ensures { result ≡ with_data n x other }
{
    match other {
        Device::Data(y) => Plan::ByBoth(Pair { x, y }, coefficients(x, y)),
        Device::P => Plan::ByBoth(Pair { x, y: n }, Rule::Mixed(Element(0), over_power(x))),
        Device::Q => Plan::ByBoth(Pair { x, y: n + 1 }, Rule::Carried(power_of_disk(x))),
    }
}

// 02^x, by which disk x enters Q.
fn power_of_disk(x: usize) -> Element
    ensures { result.0 ≡ power 2 x }
{
    Element(2).power(x as u64)
}

// 02^-x. A power of 02 is never 00, so it has an inverse.
#[tactic(auto, using(crate::proofs::Inverses::power_inverse))]
fn over_power(x: usize) -> Element
    ensures { result.0 ≡ over_power x }
{
    power_of_disk(x).inverse().unwrap()
}

// A and B of equations 17 and 18. 02^(y-x) + 01 has an inverse, since the disks are different.
fn coefficients(x: usize, y: usize) -> Rule
    requires { (x < 255) × (y < 255) × (x ≢ y) }
    ensures { result ≡ mixed x y }
{
    let over_x = over_power(x);
    let ratio = power_of_disk(y).product(over_x);
    let scale = ratio.sum(Element(1)).inverse().unwrap();
    Rule::Mixed(ratio.product(scale), over_x.product(scale))
}

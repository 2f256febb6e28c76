// The devices of a loss: what device codes name, and the refusal of a rebuild. Every function takes any
// numbers and any devices.
#![tactic(auto)]

ghost use Rattle.std.specs.Prelude.{◌≡◌};
ghost use Rattle.base.specs.Refusal.{first_of};
ghost use Rattle.shape.specs.Number.{number};
ghost use Rattle.devices.specs.Refusals.{loss_refusals, rebuild_refusal};
ghost use Rattle.devices.specs.Codes.{named_by, loss_of, naming_of, no_devices, named_refusal};

use column::{Device, Lost};
use shape::{Geometry, Refusal};

// The code of a data disk is its number, below this.
const DATA_CODES: usize = 255;

// The codes of the parities, and that of none.
const P_CODE: usize = 256;

const Q_CODE: usize = 257;

const NONE_CODE: usize = 65535;

// What a device code stands for. Three meanings: an Option in a Result would say no more, and less plainly.
#[derive(Clone, Copy, PartialEq, Eq)]
pub enum Named {
    Device(Device),
    Nothing,
    Meaningless,
}

impl From<usize> for Named {
    ghost from_gives = { λ code named. named ≡ named_by code };

    #[tactic(auto, unfolding(crate::specs::Codes::named_by))]
    fn from(code: usize) -> Named {
        match code {
            0..DATA_CODES => Named::Device(Device::Data(code)),
            P_CODE => Named::Device(Device::P),
            Q_CODE => Named::Device(Device::Q),
            NONE_CODE => Named::Nothing,
            _ => Named::Meaningless,
        }
    }
}

// ---- refusals

pub fn rebuild_refusal(g: Geometry, len: usize, lost: Lost) -> Result<(), Refusal>
    ensures { number result ≡ rebuild_refusal g len lost }
{
    shape::encode_refusal(g, len)?;
    loss_refusal(g, lost)
}

// 4 and 5.
pub fn loss_refusal(g: Geometry, lost: Lost) -> Result<(), Refusal>
    ensures { number result ≡ first_of (loss_refusals g lost) }
{
    match lost {
        Lost::One(device) => device_refusal(g, device),
        Lost::Two(first, second) => {
            device_refusal(g, first)?;
            device_refusal(g, second)?;
            if first == second {
                return Err(Refusal::SameDevice);
            }
            Ok(())
        }
    }
}

// 4 for one device.
fn device_refusal(g: Geometry, device: Device) -> Result<(), Refusal>
    ensures { number result ≡ first_of (loss_refusals g (Lost.One device)) }
{
    match device {
        Device::Data(k) if g.n <= k => Err(Refusal::Device),
        _ => Ok(()),
    }
}

// ---- device codes

// The refusal of a rebuild whose devices are given by their codes.
pub fn named_refusal(g: Geometry, len: usize, first: usize, second: usize) -> Result<(), Refusal>
    ensures { number result ≡ named_refusal g len (naming_of first second) }
{
    shape::encode_refusal(g, len)?;
    let lost = naming_of(first, second).ok_or(Refusal::Device)?;
    loss_refusal(g, lost)
}

// The loss that the codes of a rebuild name.
pub fn naming_of(first: usize, second: usize) -> Option<Lost>
    ensures { result ≡ naming_of first second }
{
    loss_of(Named::from(first), Named::from(second))
}

// Whether both codes are that of none.
pub fn no_devices(first: usize, second: usize) -> bool
    ensures { result ≡ no_devices (named_by first) (named_by second) }
{
    Named::from(first) == Named::Nothing && Named::from(second) == Named::Nothing
}

fn loss_of(first: Named, second: Named) -> Option<Lost>
    ensures { result ≡ loss_of first second }
{
    match (first, second) {
        (Named::Device(d), Named::Device(e)) => Some(Lost::Two(d, e)),
        (Named::Device(d), Named::Nothing) => Some(Lost::One(d)),
        _ => None,
    }
}

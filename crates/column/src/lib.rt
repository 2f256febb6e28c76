// One column: position i of all devices. The devices of a stripe and what may be lost of them; the
// equations, what each call does to a column and the theory of two parities are in specs/ and proofs/.
#![tactic(auto)]

// A device of a stripe: a data disk by its number, or a parity.
#[derive(Clone, Copy, PartialEq, Eq)]
pub enum Device {
    Data(usize),
    P,
    Q,
}

// One lost device, or two.
#[derive(Clone, Copy, PartialEq, Eq)]
pub enum Lost {
    One(Device),
    Two(Device, Device),
}

// What describes a stripe, where its blocks begin, and the refusal of each call that names no loss.
// Every function takes any numbers.
#![tactic(auto)]

ghost use Rattle.std.specs.Prelude.{◌≡◌};
ghost use Rattle.base.specs.Refusal.{first_of};
ghost use Rattle.shape.specs.Number.{number_of, number};
ghost use Rattle.shape.specs.Layout.{low_start, place_before};
ghost use Rattle.shape.specs.Refusals.{library, limits_refusals, shape_refusals, stretch_refusals, encode_refusal, write_refusal, check_refusal};

// n data disks with blocks of b bytes, then P and Q.
#[derive(Clone, Copy)]
pub struct Geometry {
    pub n: usize,
    pub b: usize,
}

// The largest n and b that a call takes. Their types keep (n + 2) * b within 64 bits.
#[derive(Clone, Copy)]
pub struct Limits {
    pub n: u16,
    pub b: u32,
}

impl Geometry {
    // Where the block of a role begins. It reads the low 32 bits of b and of the role, so that
    // the product fits; a stripe that the library takes has no others.
    pub fn start(self, role: usize) -> usize
        ensures { result ≡ low_start self role }
    {
        role % 4294967296 * (self.b % 4294967296)
    }

    // From a place in a block to the same place in the block of the role before: a loop over the
    // roles then needs no product. Modulo 2^64, so that any place may be given.
    pub fn role_before(self, at: usize) -> usize
        ensures { result ≡ place_before self at }
    {
        std::num::wrapping_sub_usize(at, self.b)
    }
}

// Why a call on a stripe is refused. A refusal's number is the one that C and a job's answer give.
#[derive(Clone, Copy, PartialEq, Eq)]
pub enum Refusal {
    Disks = 1,
    BlockSize = 2,
    Length = 3,
    Device = 4,
    SameDevice = 5,
    Stretch = 6,
    Room = 7,
    Unclear = 9,
}

impl From<Refusal> for u8 {
    ghost from_gives = { λ r n. n ≡ number_of r };

    fn from(refusal: Refusal) -> u8 {
        refusal as u8
    }
}

// The number of a call's result: that of its refusal, and 0 where it is done.
pub fn number(outcome: Result<(), Refusal>) -> u8
    ensures { result ≡ number outcome }
{
    match outcome {
        Ok(()) => 0,
        Err(refusal) => u8::from(refusal),
    }
}

// ---- refusals

// The limits of the library's calls.
pub fn library_limits() -> Limits
    ensures { result ≡ library }
{
    Limits { n: 255, b: 65536 }
}

// 1 and 2.
pub fn limits_refusal(limits: Limits, g: Geometry) -> Result<(), Refusal>
    ensures { number result ≡ first_of (limits_refusals limits g) }
{
    if g.n == 0 {
        return Err(Refusal::Disks);
    }
    if (limits.n as usize) < g.n {
        return Err(Refusal::Disks);
    }
    if g.b == 0 {
        return Err(Refusal::BlockSize);
    }
    if (limits.b as usize) < g.b {
        return Err(Refusal::BlockSize);
    }
    Ok(())
}

// 1, 2 and 3.
pub fn shape_refusal(limits: Limits, g: Geometry, len: usize) -> Result<(), Refusal>
    ensures { number result ≡ first_of (shape_refusals limits g len) }
{
    limits_refusal(limits, g)?;
    if len != (g.n + 2) * g.b {
        return Err(Refusal::Length);
    }
    Ok(())
}

// 4 and 6.
pub fn stretch_refusal(g: Geometry, disk: usize, offset: usize, count: usize) -> Result<(), Refusal>
    ensures { number result ≡ first_of (stretch_refusals g disk offset count) }
{
    if g.n <= disk {
        return Err(Refusal::Device);
    }
    if count == 0 {
        return Err(Refusal::Stretch);
    }
    if g.b < offset {
        return Err(Refusal::Stretch);
    }
    if g.b - offset < count {
        return Err(Refusal::Stretch);
    }
    Ok(())
}

// ---- the calls

pub fn encode_refusal(g: Geometry, len: usize) -> Result<(), Refusal>
    ensures { number result ≡ encode_refusal g len }
{
    shape_refusal(library_limits(), g, len)
}

pub fn write_refusal(
    g: Geometry,
    len: usize,
    disk: usize,
    offset: usize,
    count: usize,
) -> Result<(), Refusal>
    ensures { number result ≡ write_refusal g len disk offset count }
{
    encode_refusal(g, len)?;
    stretch_refusal(g, disk, offset, count)
}

pub fn check_refusal(g: Geometry, len: usize, room: usize) -> Result<(), Refusal>
    ensures { number result ≡ check_refusal g len room }
{
    encode_refusal(g, len)?;
    if room != g.b {
        return Err(Refusal::Room);
    }
    Ok(())
}

// The header of a job, 14 bytes read by fields, and the refusal of a job, the first in its order that
// applies.
#![tactic(auto)]

ghost use Rattle.std.specs.Prelude.{◌≡◌, IfOk, get_or};
ghost use Rattle.base.specs.Refusal.{first_of};
ghost use Rattle.shape.specs.Number.{number};
ghost use Rattle.devices.specs.Codes.{named_by};
ghost use Rattle.header.specs.declared.JobRefusal.TheVariants.{Stripe};
ghost use Rattle.header.specs.Fields.{FieldRead, big_endian};
ghost use Rattle.header.specs.Header.{geometry_of, command_of};
ghost use Rattle.header.specs.Numbers.{command_code, job_number_of, job_number, Commands, Judged};
ghost use Rattle.header.specs.Steps.{header_refusals, call_refusals, stripe_refusals};

use shape::{Geometry, Refusal};

// The most bytes that the stripe of a job may have.
pub const LIMIT: usize = 61440;

// What a job begins with, and its version.
const MARK: [u8; 3] = *b"SRJ";

const VERSION: usize = 1;

// What a job asks for. Its code is the header's command byte.
#[derive(Clone, Copy, PartialEq, Eq)]
pub enum Command {
    Encode,
    Rebuild,
    Check,
    Repair,
}

impl TryFrom<u8> for Command {
    type Error = JobRefusal;

    ghost try_from_gives = { Commands };

    fn try_from(code: u8) -> Result<Command, JobRefusal> {
        match code {
            1 => Ok(Command::Encode),
            2 => Ok(Command::Rebuild),
            3 => Ok(Command::Check),
            4 => Ok(Command::Repair),
            _ => Err(JobRefusal::Command),
        }
    }
}

// Why a job is refused: by its header, by its stripe's size, or as a call on the stripe is. A refusal's number is
// the answer's result byte.
#[derive(Clone, Copy, PartialEq, Eq)]
pub enum JobRefusal {
    Short,
    Mark,
    Version,
    Command,
    Size,
    Stripe(Refusal),
}

impl From<Refusal> for JobRefusal {
    ghost from_gives = { λ refusal job. job ≡ Stripe refusal };

    fn from(refusal: Refusal) -> JobRefusal {
        JobRefusal::Stripe(refusal)
    }
}

impl From<JobRefusal> for u8 {
    ghost from_gives = { λ refusal n. n ≡ job_number_of refusal };

    fn from(refusal: JobRefusal) -> u8 {
        match refusal {
            JobRefusal::Short => 16,
            JobRefusal::Mark => 17,
            JobRefusal::Version => 18,
            JobRefusal::Command => 19,
            JobRefusal::Size => 20,
            JobRefusal::Stripe(refusal) => u8::from(refusal),
        }
    }
}

// ---- the refusals in their order

// What a job asks for, or its refusal.
pub fn refusal(job: &[u8]) -> Result<Command, JobRefusal>
    ensures { Judged job.now result }
{
    let command = header_refusal(job)?;
    let g = geometry(job);
    shape::limits_refusal(shape::library_limits(), g)?;
    if LIMIT < (g.n + 2) * g.b {
        return Err(JobRefusal::Size);
    }
    stripe_refusal(g, command, field(job, 10), field(job, 12), &job[14..])?;
    Ok(command)
}

// 16 to 19.
fn header_refusal(job: &[u8]) -> Result<Command, JobRefusal>
    ensures number { job_number result ≡ first_of (header_refusals job.now) }
    ensures command { IfOk result (λ command. command_code command ≡ command_of job.now) }
{
    if job.len() < 14 {
        return Err(JobRefusal::Short);
    }
    if !job.starts_with(&MARK) {
        return Err(JobRefusal::Mark);
    }
    if field(job, 3) != VERSION {
        return Err(JobRefusal::Version);
    }
    Command::try_from(job[5])
}

// 1 to 5, as the command's call has them, and then 9 of a repair, which alone reads the stripe's bytes.
fn stripe_refusal(
    g: Geometry,
    command: Command,
    first: usize,
    second: usize,
    stripe: &[u8],
) -> Result<(), Refusal>
    ensures { number result ≡ first_of (stripe_refusals g (command_code command) (named_by first) (named_by second) stripe.now) }
{
    call_refusal(g, stripe.len(), command, first, second)?;
    if command == Command::Repair {
        return compare::summary_refusal(compare::summary_of(g, stripe));
    }
    Ok(())
}

// 1 to 5. A rebuild alone wants devices.
fn call_refusal(
    g: Geometry,
    len: usize,
    command: Command,
    first: usize,
    second: usize,
) -> Result<(), Refusal>
    ensures { number result ≡ first_of (call_refusals g len (command_code command) (named_by first) (named_by second)) }
{
    if command == Command::Rebuild {
        return devices::named_refusal(g, len, first, second);
    }
    shape::encode_refusal(g, len)?;
    if !devices::no_devices(first, second) {
        return Err(Refusal::Device);
    }
    Ok(())
}

// ---- 16-bit fields, high byte first

// One line of std, with the word that the definitions have for it.
pub fn big_endian(value: u16) -> [u8; 2]
    ensures { result ≡ big_endian value }
{
    value.to_be_bytes()
}

pub fn geometry(job: &[u8]) -> Geometry
    ensures { result ≡ geometry_of job.now }
{
    Geometry {
        n: field(job, 6),
        b: field(job, 8),
    }
}

// Past the end stands 00.
pub fn field(bytes: &[u8], at: usize) -> usize
    ensures { FieldRead bytes.now at result }
{
    let high = byte(bytes, at);
    let low = byte(bytes, at.saturating_add(1));
    u16::from_be_bytes([high, low]) as usize
}

// One line of std, for both bytes of a field.
fn byte(bytes: &[u8], at: usize) -> u8
    ensures { result ≡ get_or bytes.now at 0 }
{
    bytes.get(at).copied().unwrap_or(0)
}

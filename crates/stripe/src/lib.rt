// A stripe of RAID-6 in one lent buffer: n data disks, then P and Q, a block of b bytes each.
// Position i of all devices is column i. Every call takes any numbers and bytes; a refusal changes
// nothing.
#![tactic(auto)]

ghost use Rattle.shape.specs.Number.{number, numbered};
ghost use Rattle.stripe.specs.Calls.{EncodeCall, RebuildCall, RebuildNamedCall, CheckCall, RepairCall};

use column::Lost;
use losses::Plan;
use shape::{Geometry, Refusal};

// Sets P and Q. Data stay.
pub fn encode(g: Geometry, stripe: &mut [u8]) -> Result<(), Refusal>
    ensures { EncodeCall g stripe.old (number result) stripe.new }
{
    shape::encode_refusal(g, stripe.len())?;
    restore::restore(g, stripe, Plan::FromData(true));
    Ok(())
}

// Replaces the bytes of the named devices by the only ones that fit.
pub fn rebuild(g: Geometry, stripe: &mut [u8], lost: Lost) -> Result<(), Refusal>
    ensures { RebuildCall g lost stripe.old (number result) stripe.new }
{
    let plan = plans::plan_of(g, stripe.len(), lost)?;
    restore::restore(g, stripe, plan);
    Ok(())
}

// Rebuild with the devices given by their codes, as the job and C give them.
pub fn rebuild_named(
    g: Geometry,
    stripe: &mut [u8],
    first: usize,
    second: usize,
) -> Result<(), Refusal>
    ensures { RebuildNamedCall g first second stripe.old (number result) stripe.new }
{
    match devices::naming_of(first, second) {
        Some(lost) => rebuild(g, stripe, lost),
        None => devices::named_refusal(g, stripe.len(), first, second),
    }
}

// Compares the stored parities with those that the data give: a verdict for each column, and their
// summary, which is answered: 0 if all columns are clean, the common verdict if all unclean ones agree,
// and 4, mixed, otherwise.
pub fn check(g: Geometry, stripe: &[u8], verdicts: &mut [u16]) -> Result<u16, Refusal>
    ensures { CheckCall g stripe.now verdicts.old (numbered result) verdicts.new }
{
    shape::check_refusal(g, stripe.len(), verdicts.len())?;
    Ok(compare::compare(g, stripe, verdicts))
}

// Mends what a check finds, where it names one device: P or Q from the data, and a data disk from P. A first pass finds the summary. A
// clean column has what the equations say, so a rebuild of the whole device changes those with a verdict alone. Two devices that
// are wrong can look like one; then the stripe left is encoded, and not the one that was written.
pub fn repair(g: Geometry, stripe: &mut [u8]) -> Result<(), Refusal>
    ensures { RepairCall g stripe.old (number result) stripe.new }
{
    shape::encode_refusal(g, stripe.len())?;
    let summary = compare::summary_of(g, stripe);
    compare::summary_refusal(summary)?;
    match verdict::faulty_device(summary) {
        Some(device) => rebuild(g, stripe, Lost::One(device)),
        None => Ok(()),
    }
}

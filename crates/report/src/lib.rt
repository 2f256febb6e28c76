// The report of a check as bytes: the summary and the verdicts of a stripe, each as a field.
#![tactic(auto)]

ghost use Rattle.std.specs.Prelude.{◌≡◌, ◌+◌, ◌*◌, length};
ghost use Rattle.shape.specs.Refusals.{check_refusal};
ghost use Rattle.compare.specs.Compare.{verdicts};
ghost use Rattle.header.specs.Fields.{fields};
ghost use Rattle.report.specs.Report.{report, ReportCall};

use shape::Geometry;

// Checks a stripe: fills the room with the verdicts and the output with the report. Both stay as they
// are where the check is refused, and where the report has another length than the output.
pub fn check(g: Geometry, stripe: &[u8], room: &mut [u16], out: &mut [u8])
    ensures { ReportCall g stripe.now room.old out.old room.new out.new }
{
    if shape::check_refusal(g, stripe.len(), room.len()).is_err() {
        return;
    }
    if out.len() != 2 + 2 * g.b {
        return;
    }
    check_in(g, stripe, room, out);
}

// The check that is not refused, with an output of the report's length.
fn check_in(g: Geometry, stripe: &[u8], room: &mut [u16], out: &mut [u8])
    requires { (check_refusal g (length stripe.now) (length room.old) ≡ 0) × (length out.old ≡ 2 + 2 * g.b) }
    ensures { (room.new ≡ verdicts g stripe.now) × (out.new ≡ report (verdicts g stripe.now)) }
{
    let Ok(summary) = stripe::check(g, stripe, room) else {
        return;
    };
    out[..2].copy_from_slice(&header::big_endian(summary));
    put_all(room, &mut out[2..]);
}

fn put_all(values: &[u16], out: &mut [u8])
    requires { length out.old ≡ 2 * length values.now }
    ensures { out.new ≡ fields values.now }
{
    for (i, value) in values.iter().enumerate() {
        out[2 * i..2 * i + 2].copy_from_slice(&header::big_endian(*value));
    }
}

// One job: a header of 14 bytes and a stripe, answered by six bytes and, unless the job is refused,
// the stripe after its encode, rebuild or repair, or what a check of it found.
#![tactic(auto)]

ghost use Rattle.std.specs.Prelude.{◌≡◌, ◌+◌, ◌*◌, ◌≤◌, length};
ghost use Rattle.shape.specs.Refusals.{encode_refusal};
ghost use Rattle.compare.specs.Compare.{verdicts};
ghost use Rattle.header.specs.Header.{command_of};
ghost use Rattle.header.specs.Numbers.{command_code, job_number, Judged};
ghost use Rattle.header.specs.Refusals.{most_columns, job_refusal};
ghost use Rattle.report.specs.Report.{report};
ghost use Rattle.job.specs.Answer.{body, answer_to, AnswerCall};

use header::{Command, JobRefusal, LIMIT};
use shape::Geometry;

// Room for the verdicts of a check. A job has most columns with one data disk, P and Q.
const ROOM: usize = LIMIT / 3;

// Puts the answer to a job at the start of the output and returns its length. Where the output has
// no room for it, writes nothing and returns 0.
pub fn answer(job: &[u8], out: &mut [u8]) -> usize
    ensures { AnswerCall job.now out.old result out.new }
{
    let asked = header::refusal(job);
    let len = answer_length(job, asked);
    if out.len() < len {
        return 0;
    }
    respond(job, asked, &mut out[..len]);
    len
}

// The six bytes alone, or with a summary and B verdicts behind them, or with the stripe.
fn answer_length(job: &[u8], asked: Result<Command, JobRefusal>) -> usize
    requires { Judged job.now asked }
    ensures { result ≡ length (answer_to job.now) }
{
    match asked {
        Err(_) => 6,
        Ok(command) => match command {
            Command::Check => 8 + 2 * header::field(job, 8),
            _ => job.len() - 8,
        },
    }
}

// Fills an output of the answer's length.
fn respond(job: &[u8], asked: Result<Command, JobRefusal>, out: &mut [u8])
    requires { Judged job.now asked × (length out.old ≡ length (answer_to job.now)) }
    ensures { out.new ≡ answer_to job.now }
{
    let opening = [0x53, 0x52, 0x4a, 0, 1, result_byte(asked)];
    out[..6].copy_from_slice(&opening);
    if let Ok(command) = asked {
        run(job, command, &mut out[6..]);
    }
}

// The number of a refusal, and 0 for a job that is not refused: `shape::number`, of the refusals of a job.
fn result_byte(asked: Result<Command, JobRefusal>) -> u8
    ensures { result ≡ job_number asked }
{
    match asked {
        Ok(_) => 0,
        Err(refusal) => u8::from(refusal),
    }
}

// What follows the six bytes. The calls are not refused: the job's own tests passed.
fn run(job: &[u8], command: Command, out: &mut [u8])
    requires { (job_refusal job.now ≡ 0) × (command_code command ≡ command_of job.now) × (length out.old ≡ length (body job.now)) }
    ensures { out.new ≡ body job.now }
{
    let g = header::geometry(job);
    let stripe = &job[14..];
    match command {
        Command::Encode => {
            out.copy_from_slice(stripe);
            let _ = stripe::encode(g, out);
        }
        Command::Rebuild => {
            out.copy_from_slice(stripe);
            let _ = stripe::rebuild_named(g, out, header::field(job, 10), header::field(job, 12));
        }
        Command::Check => check(g, stripe, out),
        Command::Repair => {
            out.copy_from_slice(stripe);
            let _ = stripe::repair(g, out);
        }
    }
}

// Fills an output of the report's length with the report of a check.
fn check(g: Geometry, stripe: &[u8], out: &mut [u8])
    requires { (encode_refusal g (length stripe.now) ≡ 0) × (g.b ≤ most_columns) × (length out.old ≡ 2 + 2 * g.b) }
    ensures { out.new ≡ report (verdicts g stripe.now) }
{
    let mut room = [0u16; ROOM];
    let b = g.b;
    report::check(g, stripe, &mut room[..b], out);
}

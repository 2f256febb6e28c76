// Judges codes from records: each code is a record of 65 bytes, the count and then eight matrices of eight row bytes, and each answer a
// record of seven bytes.
#![tactic(auto)]

ghost use Rattle.std.specs.Prelude.{◌≡◌, ◌+◌, ◌≤◌, min, length};
ghost use Rattle.base.specs.Table.{spliced};
ghost use Rattle.judge_records.specs.Records.{answer_at, JudgeAllCall};

// Puts the answers to the whole records, as many as have room, at the start of the output and returns their length. By index: what is
// written through `chunks_exact_mut` no proof knows, and an answer has the place of its record.
pub fn judge_all(codes: &[u8], out: &mut [u8]) -> usize
    ensures { JudgeAllCall codes.now out.old result out.new }
{
    let count = (codes.len() / 65).min(out.len() / 7);
    for k in 0..count {
        put(out, 7 * k, judge_at(codes, 65 * k));
    }
    7 * count
}

fn put(out: &mut [u8], at: usize, answer: [u8; 7])
    requires { at + 7 ≤ length out.old }
    ensures { out.new ≡ spliced out.old at answer }
{
    out[at..at + 7].copy_from_slice(&answer);
}

fn judge_at(codes: &[u8], at: usize) -> [u8; 7]
    requires { at + 65 ≤ length codes.now }
    ensures { result ≡ answer_at codes.now at }
{
    judge_answer::answer(bitmatrix::judge(
        judge_code::code_at(codes, at + 1),
        usize::from(codes[at]),
    ))
}

// The program's buffers, and the answer to what was read into them.
#![tactic(auto)]

ghost use Rattle.buffers.specs.Buffers.{AnswerInputCall};

use header::LIMIT;

// A header, the longest stripe that is taken, and one byte more.
pub const INPUT: usize = 14 + LIMIT + 1;

// The six bytes and the longest stripe, or a shorter report.
pub const OUTPUT: usize = 6 + LIMIT;

// Answers the bytes read into the input. The output has room for every answer. The count stands beside the array, and no slice for
// both, since docs/CLAIMS.md promises both sizes for any count.
pub fn answer_input(input: &[u8; INPUT], read: usize, output: &mut [u8; OUTPUT]) -> usize
    ensures { AnswerInputCall input.now read output.old result output.new }
{
    let bytes: &[u8] = input;
    if bytes.len() < read {
        job::answer(bytes, output)
    } else {
        job::answer(&bytes[..read], output)
    }
}

// The bytes that answer a judgement of the judge of bit-matrix codes.
#![tactic(auto)]

ghost use Rattle.std.specs.Prelude.{◌≡◌, ◌%◌};
ghost use Rattle.judge_answer.specs.Answer.{answer_bytes};

use bitmatrix::{Judgement, Refusal};
use findings::Flaw;

// The result number, the kind of finding (0 fit, 1 a matrix, 2 a pair), its places, the ones in two bytes, and whether they are minimal. The
// kind is a byte, since a program outside reads it.
pub fn answer(judged: Result<Judgement, Refusal>) -> [u8; 7]
    ensures { result ≡ answer_bytes judged }
{
    match judged {
        Err(refusal) => [u8::from(refusal), 0, 0, 0, 0, 0, 0],
        Ok(judgement) => {
            let [high, low] = ((judgement.ones % 65536) as u16).to_be_bytes();
            let least = u8::from(judgement.minimal);
            match judgement.finding {
                None => [0, 0, 0, 0, high, low, least],
                Some(Flaw::Singular(i)) => [0, 1, place(i), 0, high, low, least],
                Some(Flaw::Pair(i, j)) => [0, 2, place(i), place(j), high, low, least],
            }
        }
    }
}

fn place(i: usize) -> u8
    ensures { result ≡ i % 256 }
{
    (i % 256) as u8
}

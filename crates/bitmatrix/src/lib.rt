// The judge of bit-matrix codes for RAID-6 at word size 8: whether any two lost words of a code can be rebuilt (000, definition 3.1.1), and
// how dense its matrices are.
#![tactic(auto)]

ghost use Rattle.std.specs.Prelude.{◌≡◌, ◌≤◌, length};
ghost use Rattle.bitmatrix.specs.Judge.{number_of, ones, Judges};

use findings::{Code, Flaw};
use matrix::Matrix;

// Why a code is not judged: it has no matrix, or more than eight. The number is the paper's.
#[derive(Clone, Copy)]
pub enum Refusal {
    Count = 8,
}

impl From<Refusal> for u8 {
    ghost from_gives = { λ refusal number. number ≡ number_of refusal };

    fn from(refusal: Refusal) -> u8 {
        refusal as u8
    }
}

// What is wrong with a code, the ones of its matrices, and whether it is fit and has just 9k - 1 of them, for k matrices.
#[derive(Clone, Copy)]
pub struct Judgement {
    pub finding: Option<Flaw>,
    pub ones: usize,
    pub minimal: bool,
}

fn ones_of(code: &[Matrix]) -> usize
    requires { length code.now ≤ 8 }
    ensures { result ≡ ones code.now (length code.now) }
{
    code.iter().map(|m| matrix::weight_of(*m)).sum()
}

// Judges the matrices at the first count places; what stands at the others changes nothing. The code comes by value with its count
// beside it, as docs/CLAIMS.md promises: a slice could not say what stands at the other places.
pub fn judge(code: Code, count: usize) -> Result<Judgement, Refusal>
    ensures { Judges code count result }
{
    if count == 0 || 8 < count {
        return Err(Refusal::Count);
    }
    let finding = findings::find(code, count);
    let ones = ones_of(&code[..count]);
    Ok(Judgement {
        finding,
        ones,
        minimal: finding.is_none() && ones == 9 * count - 1,
    })
}

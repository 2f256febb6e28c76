// What is wrong with a bit-matrix code for RAID-6 at word size 8: the first singular matrix, or the first two whose sum is singular. A code
// with neither can rebuild any two lost words (000, definition 3.1.1).
#![tactic(auto)]

ghost use Rattle.std.specs.Prelude.{◌≡◌, ◌<◌, min, length};
ghost use Rattle.findings.specs.Findings.{first, singular_at, pair_at, first_pair, finding};

use matrix::Matrix;

pub type Code = [Matrix; 8];

// What is wrong with a code: a singular matrix, or two whose sum is singular.
#[derive(Clone, Copy)]
pub enum Flaw {
    Singular(usize),
    Pair(usize, usize),
}

fn first_singular(code: &[Matrix]) -> Option<Flaw>
    ensures { result ≡ first (length code.now) (λ i. singular_at code.now i) }
{
    code.iter()
        .position(|m| matrix::is_singular(*m))
        .map(Flaw::Singular)
}

// The first pair that begins with i.
fn first_partner(code: &[Matrix], i: usize) -> Option<Flaw>
    requires { i < length code.now }
    ensures { result ≡ first (length code.now) (λ j. pair_at code.now i j) }
{
    (i + 1..code.len())
        .find(|j| matrix::is_singular(matrix::sum_of(code[i], code[*j])))
        .map(|j| Flaw::Pair(i, j))
}

fn first_pair(code: &[Matrix]) -> Option<Flaw>
    ensures { result ≡ first_pair code.now (length code.now) }
{
    (0..code.len()).find_map(|i| first_partner(code, i))
}

// What is wrong with the matrices at the first count places, of which a code has eight. The edit `seven_of_nine` asks it of nine.
pub fn find(code: Code, count: usize) -> Option<Flaw>
    ensures { result ≡ finding code (min count 8) }
{
    let used = &code[..count.min(8)];
    first_singular(used).or_else(|| first_pair(used))
}

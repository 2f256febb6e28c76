// Reads a code: eight matrices of eight row bytes, one after the other.
#![tactic(auto)]

ghost use Rattle.std.specs.Prelude.{◌≡◌, ◌+◌, ◌*◌, ◌<◌, ◌≤◌, length};
ghost use Rattle.judge_code.specs.Code.{matrix_at, code_at};

use findings::Code;
use matrix::Matrix;
use std::array;

// Where no whole code stands, one of 00.
pub fn code_at(s: &[u8], at: usize) -> Code
    ensures { result ≡ code_at s.now at }
{
    if s.len() < 64 || s.len() - 64 < at {
        return [[0; 8]; 8];
    }
    array::from_fn(
        |m|
            requires { (m < 8) × (at + 64 ≤ length s.now) }
            ensures { result ≡ matrix_at s.entry.now (at + 8 * m) }
        { matrix_at(s, at + 8 * m) },
    )
}

fn matrix_at(s: &[u8], at: usize) -> Matrix
    requires { at + 8 ≤ length s.now }
    ensures { result ≡ matrix_at s.now at }
{
    array::from_fn(|r| s[at + r])
}

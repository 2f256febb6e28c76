// Matrices of eight rows and eight columns over two elements: whether one is singular, the sum of two, and the ones of one.
#![tactic(auto)]

ghost use Rattle.std.specs.Prelude.{◌≡◌, eqb};
ghost use Rattle.matrix.specs.Matrix.{apply, add, singular, weight};

use std::array;

// Eight row bytes; column c of a row is its bit of weight 2^c.
pub type Matrix = [u8; 8];

// Each bit of the product is the parity of the ones that a row and v share.
fn maps_to_zero(m: Matrix, v: u8) -> bool
    ensures { result ≡ eqb (apply m v) 0 }
{
    m.iter().all(|row| (*row & v).count_ones() % 2 == 0)
}

// All 255 vectors are tried: few enough, and no elimination has to be trusted.
pub fn is_singular(m: Matrix) -> bool
    ensures { result ≡ singular m }
{
    (1..256usize).any(|v| maps_to_zero(m, v as u8))
}

pub fn sum_of(a: Matrix, b: Matrix) -> Matrix
    ensures { result ≡ add a b }
{
    array::from_fn(|r| a[r] ^ b[r])
}

pub fn weight_of(m: Matrix) -> usize
    ensures { result ≡ weight m }
{
    m.iter().map(|row| row.count_ones() as usize).sum()
}

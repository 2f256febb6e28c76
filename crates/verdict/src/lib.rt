// The verdict that P* and Q* give, on one column and on the columns of a chunk, and the summary. Both are
// numbers, since C lends the buffers that verdicts are written to, and reads the summary.
#![tactic(auto)]

ghost use Rattle.std.specs.Prelude.{false, ◌≢◌, ◌≡◌, length, get_or, IfSome};
ghost use Rattle.gf256.specs.Field.{first_exponent};
ghost use Rattle.column.specs.Column.{verdict_of, located};
ghost use Rattle.chunk.specs.Chunk.{width, each, all_zero};
ghost use Rattle.verdict.specs.Faulty.{faulty_of};
ghost use Rattle.verdict.specs.Summary.{joined, WithSummary};
ghost use Rattle.verdict.specs.Verdicts.{verdicts_of, unclean};

use chunk::{Sums, WIDTH};
use column::Device;
use gf256::Element;

// The four rows of the paper's table, and equation 27. A clean column, the common case, is told by one test. Neither P* nor Q* is
// 00 where they are divided, so P* has an inverse and the quotient a logarithm.
#[tactic(auto, using(crate::proofs::Zeros::clean_by_or, column::proofs::Verdicts::row_p, column::proofs::Verdicts::row_q, crate::proofs::Divided::inverse_some, crate::proofs::Divided::ratio_nonzero, crate::proofs::Divided::row_ratio))]
pub fn verdict_of(n: usize, p: Element, q: Element) -> u16
    ensures { result ≡ verdict_of n p.0 q.0 }
{
    if p.0 | q.0 == 0 {
        return 0;
    }
    match (p.0, q.0) {
        (0, _) => 2,
        (_, 0) => 1,
        _ => located(n, q.product(p.inverse().unwrap())),
    }
}

// The data disk with this Q*/P*, and 3 where there is none.
#[tactic(auto, using(gf256::proofs::Powers::exponent_below, crate::proofs::Divided::logarithm_some, crate::proofs::Divided::located_within, crate::proofs::Divided::located_beyond))]
fn located(n: usize, ratio: Element) -> u16
    requires { ratio.0 ≢ 0 }
    ensures { result ≡ located (first_exponent ratio.0 0 n) }
{
    let z = ratio.logarithm().unwrap();
    if n <= z as usize {
        return 3;
    }
    (16 + z) as u16
}

// The summary where unclean columns do not agree.
const MIXED: u16 = 4;

// The summary of two stretches of columns from their summaries. A clean column, the common case, is told first.
#[tactic(auto, using(crate::proofs::Summary::joined_left, crate::proofs::Summary::joined_right, crate::proofs::Summary::joined_same, crate::proofs::Summary::joined_differ))]
pub fn joined(found: u16, next: u16) -> u16
    ensures { result ≡ joined found next }
{
    if next == 0 {
        return found;
    }
    if found == 0 {
        return next;
    }
    if found == next { found } else { MIXED }
}

// The device that a summary names, where it names one.
pub fn faulty_device(summary: u16) -> Option<Device>
    ensures { result ≡ faulty_of summary }
{
    match summary {
        1 => Some(Device::P),
        2 => Some(Device::Q),
        16.. => Some(Device::Data((summary - 16) as usize)),
        _ => None,
    }
}

// The verdicts on the columns of a chunk whose P* and Q* are these, one for each place of the
// room, and their summary. A whole chunk without differences, the common case, is told by one test. Any
// guess may be given; the summary of the columns before is found fastest.
pub fn verdicts_of(n: usize, sums: &Sums, guess: u16, room: &mut [u16]) -> u16
    ensures { WithSummary (verdicts_of n sums.now.p sums.now.q (length room.old)) result room.new }
{
    if room.len() == WIDTH {
        if chunk::are_zero(&sums.p, &sums.q) {
            room.fill(0);
            return 0;
        }
    }
    verdicts_by_place(n, sums, guess, room)
}

// The same, without that test. Where one device is spoiled, all unclean columns of a whole chunk agree,
// and none is looked at by itself.
pub fn verdicts_by_place(n: usize, sums: &Sums, guess: u16, room: &mut [u16]) -> u16
    ensures { WithSummary (verdicts_of n sums.now.p sums.now.q (length room.old)) result room.new }
{
    if room.len() == WIDTH {
        if let Some(common) = common_verdict(n, sums, guess) {
            fill_unclean(sums, common, room);
            return common;
        }
    }
    one_by_one(n, sums, room)
}

// The common verdict of the unclean columns of a chunk, 0 where all are clean, and none where they may
// not agree. A verdict depends on Q*/P* alone, so that they agree where Q* is the same multiple of P* at
// every place. The multiple that is guessed is tried first: it needs no division.
fn common_verdict(n: usize, sums: &Sums, guess: u16) -> Option<u16>
    ensures { IfSome result (λ v. WithSummary (verdicts_of n sums.now.p sums.now.q width) v (each (unclean v sums.now.p sums.now.q))) }
{
    if chunk::are_zero(&sums.p, &sums.p) {
        let clean = chunk::are_zero(&sums.q, &sums.q);
        return Some(if clean { 0 } else { 2 });
    }
    verdict_by(n, *sums, guessed(guess)).or_else(|| verdict_by(n, *sums, ratio(largest_pair(sums))))
}

// The common verdict where Q* is c P* at every place, and none where it is not. The sums come by value, since the proof needs
// that they are bytes, which it knows of a value and not behind a reference.
fn verdict_by(n: usize, sums: Sums, c: Element) -> Option<u16>
    requires { all_zero sums.p sums.p ≡ false }
    ensures { IfSome result (λ v. WithSummary (verdicts_of n sums.p sums.q width) v (each (unclean v sums.p sums.q))) }
{
    let mut rest = sums.q;
    products::add_product(&mut rest, c, sums.p);
    if !chunk::are_zero(&rest, &rest) {
        None
    } else if c.0 == 0 {
        Some(1)
    } else {
        Some(located(n, c))
    }
}

// Q*/P* of the disk that a verdict names, where that is one bit. 00, as of P, elsewhere.
fn guessed(verdict: u16) -> Element {
    match verdict {
        16..24 => Element(1u8 << (verdict - 16)),
        _ => Element(0),
    }
}

// Q*/P*, of a pair P* and Q*, and 00 where P* is 00.
fn ratio(both: u16) -> Element {
    let [p, q] = both.to_be_bytes();
    Element(p)
        .inverse()
        .map_or(Element(0), |over_p| Element(q).product(over_p))
}

// The largest pair: its P* is not 00 where any is not. No place is tested by itself, so that the loop
// becomes vector code.
fn largest_pair(sums: &Sums) -> u16 {
    let mut largest = 0;
    for (x, y) in sums.p.iter().zip(&sums.q) {
        largest = largest.max(u16::from_be_bytes([*x, *y]));
    }
    largest
}

// v where P* and Q* are not both 00, and 0 elsewhere. This loop and the next go by the place, as those of `chunk` that write.
fn fill_unclean(sums: &Sums, v: u16, room: &mut [u16])
    requires { length room.old ≡ width }
    ensures { room.new ≡ each (unclean v sums.now.p sums.now.q) }
{
    for j in 0..WIDTH {
        room[j] = if sums.p[j] | sums.q[j] == 0 { 0 } else { v };
    }
}

fn one_by_one(n: usize, sums: &Sums, room: &mut [u16]) -> u16
    ensures { WithSummary (verdicts_of n sums.now.p sums.now.q (length room.old)) result room.new }
{
    let mut found = 0;
    for j in 0..room.len() {
        let verdict = verdict_of(n, element_at(&sums.p, j), element_at(&sums.q, j));
        room[j] = verdict;
        found = joined(found, verdict);
    }
    found
}

// 00 past the end.
fn element_at(bytes: &[u8], j: usize) -> Element
    ensures { result.0 ≡ get_or bytes.now j 0 }
{
    Element(bytes.get(j).copied().unwrap_or(0))
}

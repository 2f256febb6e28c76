// Runs the bench figures and prints a table: the case, the value that it must give, the value that
// the code gives, and whether they agree.
#![tactic(auto)]

ghost use Rattle.std.specs.Prelude.{◌≤◌, ◌<◌, length};

use column::{Device, Lost};
use findings::{Code, Flaw};
use gf256::Element;
use header::LIMIT;
use matrix::Matrix;
use shape::Geometry;
use std::fmt::{Display, Write};
use std::{fmt, io};

// What a case gives.
#[derive(Clone, Copy, PartialEq, Eq)]
enum Value {
    Nothing,
    Byte(u8),
    Exponent(u64),
    Parities(u8, u8),
    Disks(u8, u8),
    Stripe([u8; 8]),
    Verdict(u16),
    Summary(u16),
    Fit(usize),
    Singular(usize),
    Pair(usize, usize),
    Done,
    WrongLength,
    RefusedChanged,
}

use Value::{
    Byte, Disks, Done, Exponent, Fit, Nothing, Pair, Parities, RefusedChanged, Singular, Stripe,
    Summary, Verdict, WrongLength,
};

// Or its refusal, by the number: a case calls what is refused by one of three enums.
type Outcome = Result<Value, u8>;

fn main(rt: HostRuntime) -> io::Result<()> {
    line(&rt, "case", &"expected", &"got", "ok")?;
    field(&rt)?;
    encoding(&rt)?;
    rebuilding(&rt)?;
    checking(&rt)?;
    repairing(&rt)?;
    refusing(&rt)?;
    judging(&rt)?;
    answering(&rt)
}

fn field(rt: &HostRuntime) -> io::Result<()> {
    row(
        rt,
        "80 * 02",
        Ok(Byte(0x1d)),
        Ok(Byte(Element(0x80).product(Element(0x02)).0)),
    )?;
    row(
        rt,
        "8d * 02",
        Ok(Byte(0x07)),
        Ok(Byte(Element(0x8d).product(Element(0x02)).0)),
    )?;
    row(
        rt,
        "02 to the power 12",
        Ok(Byte(0xcd)),
        Ok(Byte(Element(0x02).power(12).0)),
    )?;
    row(rt, "inverse of 02", Ok(Byte(0x8e)), inverted(Element(0x02)))?;
    row(rt, "inverse of 00", Ok(Nothing), inverted(Element(0x00)))?;
    row(
        rt,
        "logarithm of 10",
        Ok(Exponent(4)),
        exponent(Element(0x10)),
    )?;
    row(rt, "logarithm of 00", Ok(Nothing), exponent(Element(0x00)))
}

fn encoding(rt: &HostRuntime) -> io::Result<()> {
    row(
        rt,
        "encode n=1: 5a",
        Ok(Parities(0x5a, 0x5a)),
        encoded(&mut [0x5a, 0, 0]),
    )?;
    row(
        rt,
        "encode n=3: 01 02 04",
        Ok(Parities(0x07, 0x15)),
        encoded(&mut [1, 2, 4, 0, 0]),
    )?;
    row(
        rt,
        "encode n=2: 01 80",
        Ok(Parities(0x81, 0x1c)),
        encoded(&mut [1, 0x80, 0, 0]),
    )?;
    row(
        rt,
        "encode n=255: all 01",
        Ok(Parities(0x01, 0x00)),
        encoded(&mut [1u8; 257]),
    )?;
    row(
        rt,
        "encode n=255: disk 254 is 01, the others 00",
        Ok(Parities(0x01, 0x8e)),
        last_disk(),
    )?;
    row(rt, "encode n=256", Err(1), encoded(&mut [1u8; 258]))?;
    row(
        rt,
        "encode n=2: 65,536 times 01 each",
        Ok(Parities(0x00, 0x03)),
        large_block(65536),
    )?;
    row(
        rt,
        "encode n=2: 65,537 times 01 each",
        Err(2),
        large_block(65537),
    )
}

fn rebuilding(rt: &HostRuntime) -> io::Result<()> {
    row(
        rt,
        "write 80 to disk 1 of 01 02 04, P 07, Q 15",
        Ok(Parities(0x85, 0x0c)),
        written(),
    )?;
    row(
        rt,
        "lose disks 0 and 2 of 01 02 04, P 07, Q 15",
        Ok(Disks(0x01, 0x04)),
        two_lost(),
    )
}

fn checking(rt: &HostRuntime) -> io::Result<()> {
    row(
        rt,
        "check 01 03 04, P 07, Q 15",
        Ok(Verdict(17)),
        verdict([1, 3, 4, 7, 0x15]),
    )?;
    row(
        rt,
        "check 01 02 04, P 06, Q 1d",
        Ok(Verdict(3)),
        verdict([1, 2, 4, 6, 0x1d]),
    )?;
    row(
        rt,
        "check 01 02 04, P 06, Q 17: both are wrong",
        Ok(Verdict(17)),
        verdict([1, 2, 4, 6, 0x17]),
    )?;
    row(
        rt,
        "check n=8: column 5 disk 2, column 9 disk 7",
        Ok(Summary(4)),
        summary_with(79),
    )?;
    row(
        rt,
        "check n=8: column 5 disk 2, column 9 disk 2",
        Ok(Summary(18)),
        summary_with(29),
    )
}

// A stripe is written as its data, then P and Q. Disks 01 02 and 80 04 have P 81 06 and Q 1c 0a.
fn repairing(rt: &HostRuntime) -> io::Result<()> {
    row(
        rt,
        "repair n=2: 01028004 81061c0a, clean",
        Ok(Stripe(CLEAN)),
        repaired(2, 2, CLEAN),
    )?;
    row(
        rt,
        "repair n=2: 01028004 00061c0a, byte of P",
        Ok(Stripe(CLEAN)),
        repaired(2, 2, [0x01, 0x02, 0x80, 0x04, 0x00, 0x06, 0x1c, 0x0a]),
    )?;
    row(
        rt,
        "repair n=2: 01028004 81061cff, byte of Q",
        Ok(Stripe(CLEAN)),
        repaired(2, 2, [0x01, 0x02, 0x80, 0x04, 0x81, 0x06, 0x1c, 0xff]),
    )?;
    row(
        rt,
        "repair n=2: 01020004 81061c0a, byte of disk 1",
        Ok(Stripe(CLEAN)),
        repaired(2, 2, [0x01, 0x02, 0x00, 0x04, 0x81, 0x06, 0x1c, 0x0a]),
    )?;
    row(
        rt,
        "repair n=2: ffff8004 81061c0a, all of disk 0",
        Ok(Stripe(CLEAN)),
        repaired(2, 2, [0xff, 0xff, 0x80, 0x04, 0x81, 0x06, 0x1c, 0x0a]),
    )
}

// Numbers and length come before the summary: the last three rows have the bytes of the one above.
fn refusing(rt: &HostRuntime) -> io::Result<()> {
    let beyond = [0x01, 0x02, 0x80, 0x04, 0x80, 0x06, 0x18, 0x0a];
    row(
        rt,
        "repair n=2: 01028004 00061cff, summary 4",
        Err(9),
        repaired(2, 2, [0x01, 0x02, 0x80, 0x04, 0x00, 0x06, 0x1c, 0xff]),
    )?;
    row(
        rt,
        "repair n=2: 01028004 8006180a, summary 3",
        Err(9),
        repaired(2, 2, beyond),
    )?;
    row(
        rt,
        "repair n=0, B=0: 01028004 8006180a",
        Err(1),
        repaired(0, 0, beyond),
    )?;
    row(
        rt,
        "repair n=2, B=0: 01028004 8006180a",
        Err(2),
        repaired(2, 0, beyond),
    )?;
    row(
        rt,
        "repair n=2, B=3: 01028004 8006180a",
        Err(3),
        repaired(2, 3, beyond),
    )
}

fn judging(rt: &HostRuntime) -> io::Result<()> {
    row(
        rt,
        "judge two identities",
        Ok(Pair(0, 1)),
        judged([IDENTITY; 8], 2),
    )?;
    row(
        rt,
        "judge row 1 of 004 with X_0",
        Ok(Fit(71)),
        judged(FIRST_SET, 8),
    )
}

fn answering(rt: &HostRuntime) -> io::Result<()> {
    row(
        rt,
        "job: 13 disks of 4,096",
        Ok(Done),
        job_result(13, 4096, 14 + 15 * 4096),
    )?;
    row(
        rt,
        "job: 14 disks of 4,096",
        Err(20),
        job_result(14, 4096, 14 + 16 * 4096),
    )?;
    row(
        rt,
        "job: 1 disk of 4,097",
        Ok(Done),
        job_result(1, 4097, 14 + 3 * 4097),
    )?;
    row(
        rt,
        "job: 12 disks of 4,097",
        Ok(Done),
        job_result(12, 4097, 14 + 14 * 4097),
    )?;
    row(
        rt,
        "job: 13 disks of 4,097",
        Err(20),
        job_result(13, 4097, 14 + 15 * 4097),
    )
}

// ---- the cases

fn inverted(x: Element) -> Outcome {
    Ok(x.inverse().map_or(Nothing, |y| Byte(y.0)))
}

fn exponent(x: Element) -> Outcome {
    Ok(x.logarithm().map_or(Nothing, Exponent))
}

// P and Q of a stripe with blocks of one byte.
fn encoded(s: &mut [u8]) -> Outcome
    requires { 2 ≤ length s.old }
{
    let n = s.len() - 2;
    stripe::encode(Geometry { n, b: 1 }, s)?;
    Ok(Parities(s[n], s[n + 1]))
}

// Two disks of b bytes that are all 01.
fn large_block(b: usize) -> Outcome
    requires { (0 < b) × (b ≤ 65537) }
{
    let mut s = [1u8; 4 * 65537];
    last_column(b, &mut s[..4 * b])
}

// P and Q of the last column of two disks of b bytes.
fn last_column(b: usize, s: &mut [u8]) -> Outcome
    requires { b < length s.old }
{
    let last = s.len() - 1;
    stripe::encode(Geometry { n: 2, b }, s)?;
    Ok(Parities(s[last - b], s[last]))
}

fn last_disk() -> Outcome {
    let mut s = [0u8; 257];
    s[254] = 1;
    encoded(&mut s)
}

fn written() -> Outcome {
    let mut s = [0x01, 0x02, 0x04, 0x07, 0x15];
    write::write(Geometry { n: 3, b: 1 }, &mut s, 1, 0, b"\x80")?;
    Ok(Parities(s[3], s[4]))
}

// An encode of n disks of b bytes, in a job of so many bytes.
fn job_result(n: u8, b: u16, len: usize) -> Outcome
    requires { (8 ≤ len) × (len ≤ 65550) }
{
    let mut job = [0u8; 14 + 16 * 4096];
    let [high, low] = b.to_be_bytes();
    job[..14].copy_from_slice(&[
        b'S', b'R', b'J', 0, 1, 1, 0, n, high, low, 0xff, 0xff, 0xff, 0xff,
    ]);
    answered(&job[..len])
}

fn answered(job: &[u8]) -> Outcome
    requires { 8 ≤ length job.now }
{
    let mut out = [0xffu8; 6 + LIMIT];
    let count = job::answer(job, &mut out);
    match out[5] {
        0 if count == job.len() - 8 => Ok(Done),
        0 => Ok(WrongLength),
        number => Err(number),
    }
}

fn two_lost() -> Outcome {
    let mut s = [0xff, 0x02, 0xff, 0x07, 0x15];
    stripe::rebuild(
        Geometry { n: 3, b: 1 },
        &mut s,
        Lost::Two(Device::Data(0), Device::Data(2)),
    )?;
    Ok(Disks(s[0], s[2]))
}

fn verdict(s: [u8; 5]) -> Outcome {
    let mut verdicts = [0u16; 1];
    stripe::check(Geometry { n: 3, b: 1 }, &s, &mut verdicts)?;
    Ok(Verdict(verdicts[0]))
}

// Eight disks of ten bytes, all 00 but column 5 of disk 2 and one place more.
fn summary_with(place: usize) -> Outcome
    requires { place < 100 }
{
    let mut s = [0u8; 100];
    s[25] = 1;
    s[place] = 1;
    let mut verdicts = [0u16; 10];
    let summary = stripe::check(Geometry { n: 8, b: 10 }, &s, &mut verdicts)?;
    Ok(Summary(summary))
}

// The stripe after its repair, or the refusal if nothing has changed.
fn repaired(n: usize, b: usize, s: [u8; 8]) -> Outcome {
    let mut after = s;
    match stripe::repair(Geometry { n, b }, &mut after) {
        Ok(()) => Ok(Stripe(after)),
        Err(refusal) if after == s => Err(u8::from(refusal)),
        Err(_) => Ok(RefusedChanged),
    }
}

fn judged(code: Code, count: usize) -> Outcome {
    let judgement = bitmatrix::judge(code, count)?;
    Ok(match judgement.finding {
        None => Fit(judgement.ones),
        Some(Flaw::Singular(i)) => Singular(i),
        Some(Flaw::Pair(i, j)) => Pair(i, j),
    })
}

// Disks 01 02 and 80 04, P and Q.
const CLEAN: [u8; 8] = [0x01, 0x02, 0x80, 0x04, 0x81, 0x06, 0x1c, 0x0a];

const IDENTITY: Matrix = [1, 2, 4, 8, 16, 32, 64, 128];

// X_0, the identity, and the seven matrices of row 1 of source document 004.
const FIRST_SET: Code = [
    IDENTITY,
    [128, 8, 1, 4, 192, 2, 32, 16],
    [64, 12, 16, 1, 128, 8, 2, 32],
    [4, 32, 128, 64, 1, 24, 16, 2],
    [32, 64, 3, 128, 4, 16, 8, 1],
    [2, 4, 8, 16, 32, 64, 128, 5],
    [8, 1, 64, 32, 2, 128, 48, 4],
    [16, 128, 2, 34, 8, 4, 1, 64],
];

// ---- the table

impl Display for Value {
    fn fmt<W: Write>(&self, f: &mut fmt::Formatter<W>) -> fmt::Result {
        match *self {
            Nothing => write!(f, "none"),
            Byte(x) => write!(f, "{x:02x}"),
            Exponent(e) => write!(f, "{e}"),
            Parities(p, q) => write!(f, "P {p:02x}, Q {q:02x}"),
            Disks(x, y) => write!(f, "{x:02x} and {y:02x}"),
            Stripe(bytes) => {
                let [a, b, c, d, e, g, h, i] = bytes;
                write!(
                    f,
                    "{a:02x}{b:02x}{c:02x}{d:02x} {e:02x}{g:02x}{h:02x}{i:02x}"
                )
            }
            Verdict(v) => write!(f, "verdict {v}"),
            Summary(v) => write!(f, "summary {v}"),
            Fit(ones) => write!(f, "fit, {ones} ones"),
            Singular(i) => write!(f, "unfit, matrix {i}"),
            Pair(i, j) => write!(f, "unfit, pair ({i},{j})"),
            Done => write!(f, "done"),
            WrongLength => write!(f, "wrong length"),
            RefusedChanged => write!(f, "refused, changed"),
        }
    }
}

#[derive(Clone, Copy)]
struct Shown(Outcome);

impl Display for Shown {
    fn fmt<W: Write>(&self, f: &mut fmt::Formatter<W>) -> fmt::Result {
        match self.0 {
            Ok(value) => write!(f, "{value}"),
            Err(number) => write!(f, "refusal {number}"),
        }
    }
}

fn row(rt: &HostRuntime, case: &str, expected: Outcome, got: Outcome) -> io::Result<()> {
    let ok = if got == expected { "yes" } else { "NO" };
    line(rt, case, &Shown(expected), &Shown(got), ok)
}

fn line(
    rt: &HostRuntime,
    case: &str,
    expected: &impl Display,
    got: &impl Display,
    ok: &str,
) -> io::Result<()> {
    println!(rt; "{case:<47}{}{}{ok}", Cell(expected), Cell(got))
}

// A value and blanks up to the width of its column. `{:<19}` is for text, and the text of a value would take memory, of which there
// may be none.
#[derive(Drop)]
struct Cell<'a, D>(&'a D);

impl<D: Display> Display for Cell<'_, D> {
    fn fmt<W: Write>(&self, f: &mut fmt::Formatter<W>) -> fmt::Result {
        let mut length = Length(0);
        write!(length, "{}", self.0)?;
        write!(f, "{}", self.0)?;
        for _ in length.0..19 {
            f.write_str(" ")?;
        }
        Ok(())
    }
}

// The bytes that are written, counted alone.
#[derive(Clone, Copy)]
struct Length(usize);

impl Write for Length {
    fn write_str(&mut self, s: &str) -> fmt::Result {
        self.0 = self.0.saturating_add(s.len());
        Ok(())
    }
}

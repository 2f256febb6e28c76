// Answers records with the operations of the field. A record is ten bytes: the operation, the operand
// a, and a big-endian number of eight bytes, which is the exponent of a power and otherwise holds the
// operand b in its low byte. The answer is two bytes a record, in order: 01 and the value, or 00 00
// for none.
#![tactic(auto)]

ghost use Rattle.std.specs.Prelude.{◌≡◌, ◌+◌, ◌≤◌, ◌<◌, length};
ghost use Rattle.field_records.specs.Records.{bytes_of, answer, number_at, Operations, AnswerAllCall};

use gf256::Element;
use std::array;

// The operations, in the order of their numbers.
#[derive(Clone, Copy)]
enum Operation {
    Sum,
    Product,
    Power,
    Inverse,
    Logarithm,
    Double,
}

// No operation has the number.
#[derive(Clone, Copy)]
struct NoOperation;

impl TryFrom<u8> for Operation {
    type Error = NoOperation;

    ghost try_from_gives = { Operations };

    fn try_from(number: u8) -> Result<Operation, NoOperation> {
        match number {
            1 => Ok(Operation::Sum),
            2 => Ok(Operation::Product),
            3 => Ok(Operation::Power),
            4 => Ok(Operation::Inverse),
            5 => Ok(Operation::Logarithm),
            6 => Ok(Operation::Double),
            _ => Err(NoOperation),
        }
    }
}

// Puts the answers at the start of the records, each over bytes that are read already, and answers
// how many bytes they are.
pub fn answer_all(records: &mut [u8]) -> usize
    ensures { AnswerAllCall records.old result records.new }
{
    let count = records.len() / 10;
    for k in 0..count {
        let at = 10 * k;
        let a = Element(records[at + 1]);
        let answer = answer_one(records[at], a, number(records, at + 2));
        records[2 * k..2 * k + 2].copy_from_slice(&bytes_of(answer));
    }
    2 * count
}

// None for a number that is no operation, and for the inverse and the logarithm of 00.
#[tactic(auto, using(gf256::proofs::Powers::exponent_below), unfolding(crate::specs::Records::answer))]
fn answer_one(operation: u8, a: Element, b: u64) -> Option<u8>
    ensures { result ≡ answer operation a.0 b }
{
    let operation = Operation::try_from(operation).ok()?;
    let low = b % 256;
    let other = Element(low as u8);
    match operation {
        Operation::Sum => Some(a.sum(other).0),
        Operation::Product => Some(a.product(other).0),
        Operation::Power => Some(a.power(b).0),
        Operation::Inverse => Some(a.inverse()?.0),
        Operation::Logarithm => Some(a.logarithm()? as u8),
        Operation::Double => Some(a.double().0),
    }
}

fn bytes_of(answer: Option<u8>) -> [u8; 2]
    ensures { result ≡ bytes_of answer }
{
    match answer {
        Some(value) => [1, value],
        None => [0, 0],
    }
}

#[tactic(auto, unfolding(crate::specs::Records::big_endian))]
fn number(bytes: &[u8], at: usize) -> u64
    requires { at + 8 ≤ length bytes.now }
    ensures { result ≡ number_at 8 bytes.now at }
{
    u64::from_be_bytes(array::from_fn(|k| bytes[at + k]))
}

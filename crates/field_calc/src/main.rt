// Answers records on standard input with the operations of the field, so that tests outside the
// proofs can ask for any of them.
#![tactic(auto)]

use std::io;
use std::io::Print;

// A whole number of records.
const CAPACITY: usize = 61440;

fn main(rt: HostRuntime) -> io::Result<()> {
    let mut input = [0u8; CAPACITY];
    let n = input::fill(&mut rt.stdin(), &mut input);
    respond(&rt, &mut input[..n])
}

fn respond<P: Print>(rt: &P, records: &mut [u8]) -> io::Result<()> {
    let n = field_records::answer_all(records);
    rt.write_all(&records[..n])
}

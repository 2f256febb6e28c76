// Answers the job on standard input on standard output.
#![tactic(auto)]

use buffers::{INPUT, OUTPUT};
use std::io::Print;

fn main(rt: HostRuntime) {
    let mut input = [0u8; INPUT];
    let read = input::fill(&mut rt.stdin(), &mut input);
    let mut output = [0u8; OUTPUT];
    let count = buffers::answer_input(&input, read, &mut output);
    if rt.write_all(&output[..count]).is_err() {
        // The exit status is 0 all the same, so that a line says it.
        let _ = eprintln!(rt; "shelf_job: the answer could not be written whole");
    }
}

// Judges codes from standard input, for tests from outside: records of 65 bytes in, answers of seven bytes out. At most 64 codes are read,
// and there is room for their answers.
#![tactic(auto)]

use std::io;
use std::io::Print;

fn main(rt: HostRuntime) -> io::Result<()> {
    let mut codes = [0u8; 4160];
    let n = input::fill(&mut rt.stdin(), &mut codes);
    let mut answers = [0u8; 448];
    let count = judge_records::judge_all(&codes[..n], &mut answers);
    rt.write_all(&answers[..count])
}

// What the programs read: the bytes of an input, as far as a buffer has room for them.
#![tactic(auto)]

ghost use Rattle.std.specs.Prelude.{◌<◌, ◌≤◌, take, length, OnOk};
ghost use Rattle.std.specs.Io.KnownBytes.{Consumes, IsAtEnd};

use std::io;
use std::io::Read;

// Fills the buffer as far as the input goes, and returns how many bytes there are. A failed read is the end of the input. What stands in the
// buffer behind them is not said, since a read may leave anything there.
pub fn fill<R: Read>(input: &mut R, buffer: &mut [u8]) -> usize
    ensures within { result ≤ length buffer.new }
    ensures bytes { Consumes (R.remaining input.old) (R.remaining input.new) (take result buffer.new) }
{
    let mut count = 0;
    let _ = read_on(input, buffer, &mut count);
    count
}

// Reads on until the buffer is full or the input ends, and counts the bytes, also those before a read that fails: so the count is not in
// the result, which tells whether one failed.
fn read_on<R: Read>(input: &mut R, buffer: &mut [u8], count: &mut usize) -> io::Result<()>
    ensures within { count.new ≤ length buffer.new }
    ensures bytes { Consumes (R.remaining input.old) (R.remaining input.new) (take count.new buffer.new) }
    ensures end { OnOk result (count.new < length buffer.new → IsAtEnd (R.remaining input.new)) }
{
    *count = 0;
    // The step is what a read gave, which no `for` has.
    while *count < buffer.len() {
        let got = input.read(&mut buffer[*count..])?;
        if got == 0 {
            return Ok(());
        }
        *count += got;
    }
    Ok(())
}

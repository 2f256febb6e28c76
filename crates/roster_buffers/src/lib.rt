// The program's buffers. A text of any length is taken in by pieces, and what is kept of it has room here; so have the first bytes
// of the asked serial, and every answer.
#![tactic(auto)]

ghost use Rattle.std.specs.Prelude.{◌≡◌, ◌++◌, length, take};
ghost use Rattle.roster_answer.specs.Answer.{Begins};
ghost use Rattle.roster_buffers.specs.Kept.{kept_size, held_size, kept, is_taken, Holds, AnswerHeldCall};

use roster_answer::ANSWER;

// As many bytes as 258 lines of 20 characters have.
const KEPT: usize = 258 * 21;

// The bytes that are kept, and one more.
pub const HELD: usize = KEPT + 1;

// One byte more than a serial has.
pub const ASKED: usize = 21;

// An array of which the first `count` bytes are filled, or all where it has fewer.
#[derive(Clone, Copy)]
pub struct Filled<const N: usize> {
    pub bytes: [u8; N],
    pub count: usize,
}

impl<const N: usize> Filled<N> {
    pub fn part(&self) -> &[u8]
        ensures { result.now ≡ take self.now.count self.now.bytes }
    {
        serials::part(&self.bytes, 0, self.count)
    }
}

// Takes in more of the text that is held. Where what is kept of it fills the array, no byte that comes later is taken in.
pub fn take_in(held: &mut Filled<HELD>, more: &[u8])
    ensures { Begins (kept (take held.old.count held.old.bytes ++ more.now)) held.old.bytes held.new.count held.new.bytes }
{
    held.count = count_held(held);
    for c in more {
        if is_taken(held.count, *c) {
            held.bytes[held.count] = *c;
            held.count += 1;
        }
    }
}

// How many of the first `count` bytes are kept.
fn count_held(held: &Filled<HELD>) -> usize
    ensures { Holds held.now.bytes result (take held.now.count held.now.bytes) }
{
    if held.count <= KEPT {
        return held.count;
    }
    if is_taken(KEPT, held.bytes[KEPT]) {
        return HELD;
    }
    KEPT
}

// Whether a byte is taken in after n others.
fn is_taken(n: usize, c: u8) -> bool
    ensures { result ≡ is_taken kept_size n c }
{
    n < KEPT || (n == KEPT && !lines::is_character(c))
}

// Answers from the bytes that are held of a text and of the asked serial.
pub fn answer_held(held: &Filled<HELD>, asked: &Filled<ASKED>, out: &mut [u8; ANSWER]) -> usize
    ensures { AnswerHeldCall held.now.bytes held.now.count asked.now.bytes asked.now.count out.old result out.new }
{
    roster_answer::answer(held.part(), asked.part(), out)
}

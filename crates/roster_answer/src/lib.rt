// What a fitter who asks for a serial is answered: a line with its slot, with none, or with why the roster's text is refused.
#![tactic(auto)]

ghost use Rattle.std.specs.Prelude.{◌≡◌, ◌+◌, ◌%◌, ◌≤◌, ◌++◌, length};
ghost use Rattle.lines.specs.Faults.{number_of};
ghost use Rattle.roster_answer.specs.Words.{digit, decimal, found_line, refused_line};
ghost use Rattle.roster_answer.specs.Answer.{answer_text, Begins};

use lines::{Fault, MOST};
use serials::Serials;

// The longest answer.
pub const ANSWER: usize = 73;

// Answers whether the roster that a text holds has the asked serial. The output has room for every answer.
pub fn answer(text: &[u8], asked: &[u8], out: &mut [u8; ANSWER]) -> usize
    ensures { Begins (answer_text text.now asked.now) out.old result out.new }
{
    let mut ends = [0usize; MOST];
    match roster::read(text, &mut ends) {
        Ok(slots) => {
            let serials = Serials {
                chars: text,
                ends: &ends[..slots],
            };
            tell_found(serials.find(asked), out)
        }
        Err(faulty) => tell_refused(faulty.fault, faulty.line, out),
    }
}

fn tell_found(found: Option<usize>, out: &mut [u8]) -> usize
    requires { 73 ≤ length out.old }
    ensures { Begins (found_line found) out.old result out.new }
{
    match found {
        Some(slot) => tell(b"slot ", slot, b"\n", out),
        None => put(b"none\n", out),
    }
}

// Each line's words stand whole, with the fault's number in them, so that they can be read here as a fitter gets them.
fn tell_refused(fault: Fault, line: usize, out: &mut [u8]) -> usize
    requires { 73 ≤ length out.old }
    ensures { Begins (refused_line (number_of fault) line) out.old result out.new }
{
    match fault {
        Fault::BadCharacter => tell(
            b"refused 30 line ",
            line,
            b": a character that is not a capital letter or a digit\n",
            out,
        ),
        Fault::BadLength => tell(
            b"refused 31 line ",
            line,
            b": a serial that is empty or longer than 20 characters\n",
            out,
        ),
        Fault::NoLineFeed => tell(
            b"refused 32 line ",
            line,
            b": no line feed at the end\n",
            out,
        ),
        Fault::Repeated => tell(
            b"refused 33 line ",
            line,
            b": the serial of an earlier line\n",
            out,
        ),
        Fault::PastLast => tell(b"refused 34 line ", line, b": more than 257 lines\n", out),
    }
}

// Puts words, a number and words at the start of the output.
fn tell(head: &[u8], number: usize, tail: &[u8], out: &mut [u8]) -> usize
    requires { length head.now + 3 + length tail.now ≤ length out.old }
    ensures { Begins ((head.now ++ decimal number) ++ tail.now) out.old result out.new }
{
    let end = put_numbered(head, number, out);
    end + put(tail, &mut out[end..])
}

fn put_numbered(head: &[u8], number: usize, out: &mut [u8]) -> usize
    requires { length head.now + 3 ≤ length out.old }
    ensures { Begins (head.now ++ decimal number) out.old result out.new }
{
    let end = put(head, out);
    end + put_decimal(number, &mut out[end..])
}

// Puts words at the start of the output.
fn put(words: &[u8], out: &mut [u8]) -> usize
    requires { length words.now ≤ length out.old }
    ensures { Begins words.now out.old result out.new }
{
    out[..words.len()].copy_from_slice(words);
    words.len()
}

// By hand, as all words here: `write!` promises its bytes only where it succeeds, and nowhere that it does.
#[tactic(auto, unfolding(crate::specs::Words::decimal))]
fn put_decimal(n: usize, out: &mut [u8]) -> usize
    requires { 3 ≤ length out.old }
    ensures { Begins (decimal n) out.old result out.new }
{
    if n < 10 {
        out[0] = last_digit(n);
        return 1;
    }
    if n < 100 {
        out[0] = last_digit(n / 10);
        out[1] = last_digit(n);
        return 2;
    }
    out[0] = last_digit(n / 100);
    out[1] = last_digit(n / 10);
    out[2] = last_digit(n);
    3
}

fn last_digit(n: usize) -> u8
    ensures { result ≡ digit n }
{
    (48 + n % 10) as u8
}

// A line of a roster text, and what can be wrong with one.
#![tactic(auto)]

ghost use Rattle.std.specs.Prelude.{◌≡◌, not};
ghost use Rattle.std.specs.List.{list_any};
ghost use Rattle.lines.specs.Lines.{is_character};
ghost use Rattle.lines.specs.Faults.{number_of, judged_number, line_number};

use serials::Serials;

// The most lines: 255 data disks, P and Q.
pub const MOST: usize = 257;

// The most characters of a serial.
pub const LONGEST: usize = 20;

// What can be wrong with a line, each with its number.
#[derive(Clone, Copy)]
pub enum Fault {
    BadCharacter = 30,
    BadLength = 31,
    NoLineFeed = 32,
    Repeated = 33,
    PastLast = 34,
}

impl From<Fault> for u8 {
    ghost from_gives = { λ fault number. number ≡ number_of fault };

    fn from(fault: Fault) -> u8 {
        fault as u8
    }
}

// The first test that a line fails, if it fails one. The serials of the lines before it are lent.
#[tactic(auto, using(crate::proofs::Lines::any_bad), unfolding(crate::specs::Faults::line_number))]
pub fn judge(before: &Serials<'_, '_>, serial: &[u8], ended: bool) -> Result<(), Fault>
    ensures { judged_number result ≡ line_number before.now serial.now ended }
{
    if has_bad(serial) {
        return Err(Fault::BadCharacter);
    }
    if serial.is_empty() || LONGEST < serial.len() {
        return Err(Fault::BadLength);
    }
    if !ended {
        return Err(Fault::NoLineFeed);
    }
    if before.find(serial).is_some() {
        return Err(Fault::Repeated);
    }
    if MOST <= before.len() {
        return Err(Fault::PastLast);
    }
    Ok(())
}

fn has_bad(serial: &[u8]) -> bool
    ensures { result ≡ list_any (λ c. not (is_character c)) serial.now }
{
    serial.iter().any(|c| !is_character(*c))
}

// A capital letter or a digit.
pub fn is_character(c: u8) -> bool
    ensures { result ≡ is_character c }
{
    matches!(c, b'0'..=b'9' | b'A'..=b'Z')
}

// The roster of serials: which disk stands in which slot. A text has one line for each slot, in slot order; it is
// read, and written from any serials that are lent. A refusal comes with the line, counted from 1.
#![tactic(auto)]

ghost use Rattle.std.specs.Prelude.{◌≡◌, ◌≤◌, length};
ghost use Rattle.lines.specs.Lines.{line_feed};
ghost use Rattle.roster.specs.declared.WriteError.TheVariants.{Faulty};
ghost use Rattle.roster.specs.Text.{roster_text, index_of};
ghost use Rattle.roster.specs.Calls.{read_of, judge_answer, begun_with, ReadCall, WriteCall};

use lines::{Fault, MOST};
use serials::Serials;

const LINE_FEED: u8 = b'\n';

// The first fault of some lines, and its line, counted from 1.
#[derive(Clone, Copy)]
pub struct FaultyLine {
    pub fault: Fault,
    pub line: usize,
}

// Why serials are not written: the first fault, or too short an output.
#[derive(Clone, Copy)]
pub enum WriteError {
    Faulty(FaultyLine),
    NoRoom,
}

impl From<FaultyLine> for WriteError {
    ghost from_gives = { λ faulty error. error ≡ Faulty faulty };

    fn from(faulty: FaultyLine) -> WriteError {
        WriteError::Faulty(faulty)
    }
}

// Reads a roster, and answers the number of its slots. Its serials are those that the text and the ends of its lines
// lend. Past its slots the ends stay, and where the text is refused all do. The ends are the caller's, since nothing
// is allocated.
pub fn read(text: &[u8], ends: &mut [usize; MOST]) -> Result<usize, FaultyLine>
    ensures { ReadCall text.now ends.old result ends.new }
{
    let mut found = *ends;
    let mut slots = 0;
    let mut start = 0;
    // a turn goes on by a whole line, whose length it finds first
    while start < text.len() {
        let end = start + line_length(&text[start..]);
        let before = Serials {
            chars: text,
            ends: &found[..slots],
        };
        let line = slots + 1;
        let judged = lines::judge(&before, &text[start..end], end < text.len());
        judged.map_err(|fault| FaultyLine { fault, line })?;
        found[slots] = end;
        slots += 1;
        start = end + 1;
    }
    *ends = found;
    Ok(slots)
}

// How long the first line of a text is: to its line feed, or to the text's end.
fn line_length(text: &[u8]) -> usize
    ensures within { result ≤ length text.now }
    ensures place { result ≡ index_of line_feed text.now }
{
    text.iter()
        .position(|c| *c == LINE_FEED)
        .unwrap_or(text.len())
}

// Writes the text of any serials at the start of the output, whose other bytes stay, and answers the text's length;
// where it is refused, all do.
pub fn write(lent: &Serials<'_, '_>, out: &mut [u8]) -> Result<usize, WriteError>
    ensures { WriteCall lent.now out.old result out.new }
{
    let length = judge_all(lent)?;
    if out.len() < length {
        return Err(WriteError::NoRoom);
    }
    put_all(lent, out);
    Ok(length)
}

// The first fault of serials to be written, or the length of their text.
fn judge_all(lent: &Serials<'_, '_>) -> Result<usize, FaultyLine>
    ensures { read_of result ≡ judge_answer lent.now }
{
    let mut length = 0;
    for slot in 0..lent.len() {
        let serial = lent.get(slot);
        let line = slot + 1;
        let judged = lines::judge(&lent.first(slot), serial, true);
        judged.map_err(|fault| FaultyLine { fault, line })?;
        length += serial.len() + 1;
    }
    Ok(length)
}

fn put_all(lent: &Serials<'_, '_>, out: &mut [u8])
    requires { length (roster_text lent.now) ≤ length out.old }
    ensures { out.new ≡ begun_with (roster_text lent.now) out.old }
{
    let mut at = 0;
    for slot in 0..lent.len() {
        let serial = lent.get(slot);
        out[at..at + serial.len()].copy_from_slice(serial);
        at += serial.len();
        out[at] = LINE_FEED;
        at += 1;
    }
}

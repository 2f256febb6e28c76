// The stored parities of a stripe held against those that its data give: a verdict for each column, and their summary. The columns are worked
// on in chunks, of which the last may be a part, or in strips.
#![tactic(auto)]

ghost use Rattle.std.specs.Prelude.{◌≡◌, ◌+◌, ◌≤◌, length};
ghost use Rattle.base.specs.Choice.{choose};
ghost use Rattle.chunk.specs.Chunk.{width};
ghost use Rattle.shape.specs.Number.{number};
ghost use Rattle.shape.specs.Refusals.{WellShaped};
ghost use Rattle.sums.specs.Strip.{strip};
ghost use Rattle.verdict.specs.Summary.{WithSummary};
ghost use Rattle.compare.specs.Compare.{summary_of, CompareCall, verdicts_from, beyond, RoomFor, CheckedInto};
ghost use Rattle.compare.specs.Repair.{unclear, repair_refusal};

use chunk::{Sums, WIDTH};
use losses::Pair;
use shape::{Geometry, Refusal};
use stretch::Stretch;
use sums::{CHUNKS, STRIP};

// Fills the room with the verdicts and answers their summary. Where a check is refused: 0, and the room stays.
pub fn compare(g: Geometry, stripe: &[u8], room: &mut [u16]) -> u16
    ensures { CompareCall g stripe.now room.old result room.new }
{
    if shape::check_refusal(g, stripe.len(), room.len()).is_err() {
        return 0;
    }
    let stripe = Stripe { g, bytes: stripe };
    stripe.check_into(room, true)
}

// The summary alone: the verdicts are kept nowhere. 0 where the stripe is none.
pub fn summary_of(g: Geometry, stripe: &[u8]) -> u16
    ensures { result ≡ summary_of g stripe.now }
{
    if shape::encode_refusal(g, stripe.len()).is_err() {
        return 0;
    }
    let stripe = Stripe { g, bytes: stripe };
    let mut room = [0u16; STRIP];
    stripe.check_into(&mut room, false)
}

// 9 where a summary names no one device: 3 and 4.
pub fn summary_refusal(summary: u16) -> Result<(), Refusal>
    ensures { number result ≡ choose (unclear summary) 9 0 }
{
    if summary == 3 || summary == 4 {
        return Err(Refusal::Unclear);
    }
    Ok(())
}

// 1 to 3 and 9. This refusal alone reads the bytes of a stripe.
pub fn repair_refusal(g: Geometry, stripe: &[u8]) -> Result<(), Refusal>
    ensures { number result ≡ repair_refusal g stripe.now }
{
    shape::encode_refusal(g, stripe.len())?;
    summary_refusal(summary_of(g, stripe))
}

// Where in the room the verdicts from column i on go.
fn place(i: usize, keep: bool) -> usize
    ensures { result ≡ choose keep i 0 }
{
    if keep { i } else { 0 }
}

// A stripe that the library takes, to be read. Its methods take it by value: behind a reference it is read again after each chunk,
// and a check of two disks took a fifth longer.
#[derive(Clone, Copy)]
struct Stripe<'a> {
    g: Geometry,
    bytes: &'a [u8],
    ghost shaped: { WellShaped g bytes.now },
}

impl Stripe<'_> {
    // Where the verdicts are not kept, those of a stretch go over those of the one before. `keep` is a flag and no type of room, since
    // it says no more than `place` reads from it.
    fn check_into(self, room: &mut [u16], keep: bool) -> u16
        requires { RoomFor self.g keep room.old }
        ensures { CheckedInto self.entry.g self.entry.bytes.now keep result room.new }
    {
        if sums::in_strips(self.g) {
            self.check_strips(room, keep)
        } else {
            self.check_columns(room, keep)
        }
    }

    // Two roles that the stripe has not, so that none is lost.
    fn beyond(self) -> Pair
        ensures { result ≡ beyond self.entry.g.n }
    {
        let role = self.g.n + 2;
        Pair { x: role, y: role }
    }

    // By whole strips, of which the last may take columns again: their verdicts are the same.
    fn check_strips(self, room: &mut [u16], keep: bool) -> u16
        requires { (strip ≤ self.g.b) × RoomFor self.g keep room.old }
        ensures { CheckedInto self.entry.g self.entry.bytes.now keep result room.new }
    {
        let mut found = 0;
        for done in (0..self.g.b).step_by(STRIP) {
            let i = stretch::next_start(self.g.b, STRIP, done);
            let at = place(i, keep);
            found = verdict::joined(found, self.check_strip(i, &mut room[at..at + STRIP]));
        }
        found
    }

    fn check_strip(self, i: usize, room: &mut [u16]) -> u16
        requires { (i + strip ≤ self.g.b) × (length room.old ≡ strip) }
        ensures { WithSummary (verdicts_from self.entry.g self.entry.bytes.now i (length room.old)) result room.new }
    {
        let g = self.g;
        let mut strip = [Sums::ZERO; CHUNKS];
        sums::strip_survivors(g, self.bytes, i, self.beyond(), &mut strip);
        let mut found = 0;
        for m in 0..CHUNKS {
            let c = WIDTH * m;
            found = verdict::joined(
                found,
                verdict::verdicts_of(g.n, &strip[m], found, &mut room[c..c + WIDTH]),
            );
        }
        found
    }

    fn check_columns(self, room: &mut [u16], keep: bool) -> u16
        requires { RoomFor self.g keep room.old }
        ensures { CheckedInto self.entry.g self.entry.bytes.now keep result room.new }
    {
        let mut found = 0;
        let chunks = self.g.b / WIDTH;
        for m in 0..chunks {
            let i = WIDTH * m;
            let at = place(i, keep);
            let next = self.check_chunk(i, found, &mut room[at..at + WIDTH]);
            found = verdict::joined(found, next);
        }
        let i = WIDTH * chunks;
        if i < self.g.b {
            let w = self.g.b - i;
            let at = place(i, keep);
            found = verdict::joined(found, self.check_part(i, &mut room[at..at + w]));
        }
        found
    }

    // Stored plus recomputed, and what the differences say; the summary of the columns before is the guess.
    fn check_chunk(self, i: usize, guess: u16, room: &mut [u16]) -> u16
        requires { (i + width ≤ self.g.b) × (length room.old ≡ width) }
        ensures { WithSummary (verdicts_from self.entry.g self.entry.bytes.now i (length room.old)) result room.new }
    {
        let s = sums::syndromes(self.g, self.bytes, i);
        verdict::verdicts_of(self.g.n, &s, guess, room)
    }

    // The same of fewer columns. The functions of a whole chunk know its width, and these do not. A part without differences is told
    // by one test here too: a second caller of `verdicts_of` would set it apart from the loop over the chunks (docs/DECISIONS.md).
    fn check_part(self, i: usize, room: &mut [u16]) -> u16
        requires { (i + length room.old ≤ self.g.b) × (length room.old ≤ width) }
        ensures { WithSummary (verdicts_from self.entry.g self.entry.bytes.now i (length room.old)) result room.new }
    {
        let g = self.g;
        let at = Stretch {
            g,
            i,
            w: room.len(),
        };
        let s = sums::part_survivors(at, self.bytes, self.beyond());
        if chunk::are_zero(&s.p, &s.q) {
            room.fill(0);
            return 0;
        }
        verdict::verdicts_by_place(g.n, &s, 0, room)
    }
}

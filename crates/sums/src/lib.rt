// The sums over the disks in a stretch of columns, by Horner's rule (equation 21) from the highest
// disk down. A stripe that has not these columns is taken as 00. What sets bytes takes `g` and `stripe` apart, as `stretch` does.
#![tactic(auto)]

ghost use Rattle.std.specs.Prelude.{◌≡◌, ℕ, ⊤, ◌+◌, ◌≤◌, ◌<◌, length, get_or};
ghost use Rattle.chunk.specs.Chunk.{width, each};
ghost use Rattle.losses.specs.Losses.{without, by_p};
ghost use Rattle.shape.specs.Refusals.{WellShaped};
ghost use Rattle.shape.specs.Columns.{ColumnsMapped};
ghost use Rattle.column.specs.Column.{put, encode_column, reed_solomon};
ghost use Rattle.stretch.specs.Stretch.{Has, PlacedAt, column_of, set_on};
ghost use Rattle.sums.specs.Sums.{parities_of, sums_of, Tails, HighestAdded, StoredAdded, DisksAdded, AddedAbove};
ghost use Rattle.sums.specs.Strip.{in_strips, has_strip, HasStrip, over_strip, StripSummed, staged, outside, plain_group, GroupAdded, AddedWithin};
ghost use Rattle.sums.specs.Passes.{page, in_passes, parities_set, Passed};

use chunk::{Sums, WIDTH};
use losses::Pair;
use shape::Geometry;
use stretch::Stretch;

// The chunks of a strip, and its columns.
pub const CHUNKS: usize = 8;

pub const STRIP: usize = CHUNKS * WIDTH;

// The disks that are added to a chunk of a strip before its next chunk.
const GROUP: usize = 8;

// With more disks than these a stripe is worked on in strips.
const FEW: usize = 64;

// The chunks of a page, and its columns. Where blocks are whole pages, the bytes of a column share one place of the first
// cache, which on some processors holds eight lines.
const PAGE_CHUNKS: usize = 32;

const PAGE: usize = PAGE_CHUNKS * WIDTH;

// The most disks whose bytes have room there beside P and Q.
const SIDE_BY_SIDE: usize = 6;

// The disks of a pass.
const PASS: usize = 5;

// P and Q of each column of a chunk, as the data give them.
#[tactic(auto, using(crate::proofs::Zeros::no_parities))]
pub fn parities(g: Geometry, stripe: &[u8], i: usize) -> Sums
    ensures { result ≡ parities_of g.n (column_of g stripe.now i width) }
{
    let at = Stretch { g, i, w: WIDTH };
    if !at.is_in(stripe.len()) {
        return Sums::ZERO;
    }
    Columns { g, stripe, i }.data_sums()
}

// P* and Q* of each column of a chunk: the parities that the data give, and the stored ones added, none of which is lost.
#[tactic(auto, using(crate::proofs::Zeros::no_syndromes))]
pub fn syndromes(g: Geometry, stripe: &[u8], i: usize) -> Sums
    ensures { result ≡ sums_of g.n (column_of g stripe.now i width) }
{
    let at = Stretch { g, i, w: WIDTH };
    if !at.is_in(stripe.len()) {
        return Sums::ZERO;
    }
    let mut sums = Columns { g, stripe, i }.data_sums();
    let d = at.load(stripe, g.n);
    chunk::add(&mut sums.p, &d);
    let d = at.load(stripe, g.n + 1);
    chunk::add(&mut sums.q, &d);
    sums
}

// P* and Q* of each column of a chunk without two roles. A lost disk is no part of the loops:
// its step is a doubling.
pub fn survivors(g: Geometry, stripe: &[u8], i: usize, pair: Pair) -> Sums
    ensures { result ≡ sums_of g.n (λ j. without pair.x pair.y (column_of g stripe.now i width j)) }
{
    let mut sums = Sums::ZERO;
    let at = Stretch { g, i, w: WIDTH };
    if !at.is_in(stripe.len()) {
        return sums;
    }
    let columns = Columns { g, stripe, i };
    let k = columns.add_above(pair.x.max(pair.y), g.n, &mut sums);
    let k = columns.add_above(pair.x.min(pair.y), k, &mut sums);
    columns.add_disks(0, k, &mut sums);
    add_stored(at, stripe, pair, &mut sums);
    sums
}

// The same of any stretch. `survivors` is not this at a chunk's width: it tests no disk for being lost, and as one function for both
// it was slower (docs/DECISIONS.md).
pub fn part_survivors(at: Stretch, stripe: &[u8], pair: Pair) -> Sums
    ensures { result ≡ sums_of at.g.n (λ j. without pair.x pair.y (column_of at.g stripe.now at.i at.w j)) }
{
    let mut sums = Sums::ZERO;
    if !at.is_in(stripe.len()) {
        return sums;
    }
    for k in (0..at.g.n).rev() {
        let d = load_but(at, stripe, k, pair);
        sums.add_disk(&d);
    }
    add_stored(at, stripe, pair, &mut sums);
    sums
}

// The same of each chunk of a strip, left in `strip`, which stays where the stripe has not these columns. With many
// disks this is faster than chunk after chunk: a strip of some disks is read before the next ones. The last group has what is left.
pub fn strip_survivors(g: Geometry, stripe: &[u8], i: usize, pair: Pair, strip: &mut [Sums; CHUNKS])
    ensures { StripSummed g i pair.x pair.y stripe.now strip.old strip.new }
{
    if !has_strip(g, stripe.len(), i) {
        return;
    }
    *strip = [Sums::ZERO; CHUNKS];
    for m in 0..g.n.div_ceil(GROUP) {
        let to = g.n - GROUP * m;
        let from = to.saturating_sub(GROUP);
        add_to_strip(g, stripe, i, pair, from, to, strip);
    }
}

// Whether a stripe is to be worked on in strips: it has many disks, and a strip of columns.
pub fn in_strips(g: Geometry) -> bool
    ensures { result ≡ in_strips g }
{
    FEW < g.n && STRIP <= g.b
}

// Whether P and Q of a stripe are set in passes: blocks are whole pages, and the disks are too many to be read side by side.
pub fn in_passes(g: Geometry) -> bool
    ensures { result ≡ in_passes g }
{
    SIDE_BY_SIDE < g.n && g.b % PAGE == 0
}

// P and Q of every column as the data give them, in passes over each page: a pass adds some disks, and in between P and Q
// themselves hold the sums over the disks above. A stripe that is not for passes stays.
pub fn set_parities(g: Geometry, stripe: &mut [u8])
    ensures { stripe.new ≡ parities_set g stripe.old }
{
    if shape::encode_refusal(g, stripe.len()).is_err() {
        return;
    }
    if !in_passes(g) {
        return;
    }
    let pages = g.b / PAGE;
    for m in 0..pages {
        set_page(g, stripe, PAGE * m);
    }
}

// The sum of the data and P of each column without role x. Q is neither read nor summed. It is written into its calls, so that
// the compiler knows the width of a whole chunk.
#[inline(always)]
pub fn sum_without(at: Stretch, stripe: &[u8], x: usize) -> [u8; WIDTH]
    ensures { result ≡ each (λ j. by_p at.g.n x (column_of at.g stripe.now at.i at.w j)) }
{
    let mut p = [0u8; WIDTH];
    if !at.is_in(stripe.len()) {
        return p;
    }
    for k in 0..at.g.n + 1 {
        if k != x {
            let d = at.load(stripe, k);
            chunk::add(&mut p, &d);
        }
    }
    p
}

// A chunk's width of columns that a stripe has, to be read. `from` and `to` below stay two numbers: a `Range`
// is not `Copy`, and a struct of ours would be made anew at each call, which takes other disks.
#[derive(Clone, Copy)]
struct Columns<'a> {
    g: Geometry,
    stripe: &'a [u8],
    i: usize,
    ghost has: { Has g stripe.now i width },
}

impl Columns<'_> {
    // The bytes from a place of the buffer on.
    fn load(self, at: usize) -> [u8; WIDTH]
        requires { at + width ≤ length self.stripe.now }
        ensures { result ≡ each (λ j. get_or self.entry.stripe.now (at + j) 0) }
    {
        chunk::load(&self.stripe[at..at + WIDTH])
    }

    // What `stretch` loads, without its tests: a pass would make them at each chunk, and took 2 to 4 % longer with them.
    fn chunk(self, role: usize) -> [u8; WIDTH]
        requires { role < self.g.n + 2 }
        ensures { result ≡ each (λ j. column_of self.entry.g self.entry.stripe.now self.entry.i width j role) }
    {
        self.load(place(self.g, self.stripe, role, self.i))
    }

    // All disks. It is compiled into each caller, as one that is called for each chunk.
    #[inline(always)]
    fn data_sums(self) -> Sums
        ensures { Tails self.entry.g.n 0 (column_of self.entry.g self.entry.stripe.now self.entry.i width) result }
    {
        let mut sums = self.highest();
        self.add_pairs(self.g.n - 1, &mut sums);
        sums
    }

    // The highest disk alone: it meets sums of 00, so that its step is a copy.
    #[inline(always)]
    fn highest(self) -> Sums
        ensures { HighestAdded self.entry.g self.entry.i self.entry.stripe.now result }
    {
        let mut sums = Sums::ZERO;
        let d = self.chunk(self.g.n - 1);
        sums.add_disk(&d);
        sums
    }

    // The disks below `to` down to the lost one, which counts as 00. The first that is done.
    fn add_above(self, lost: usize, to: usize, sums: &mut Sums) -> usize
        requires { to ≤ self.g.n }
        ensures { AddedAbove self.entry.g self.entry.i lost to self.entry.stripe.now sums.old result sums.new }
    {
        if to <= lost {
            return to;
        }
        self.add_disks(lost + 1, to, sums);
        products::double(&mut sums.q);
        lost
    }

    // The disks below `to` down to `from`.
    fn add_disks(self, from: usize, to: usize, sums: &mut Sums)
        requires { (from ≤ to) × (to ≤ self.g.n) }
        ensures { DisksAdded self.entry.g self.entry.i from to self.entry.stripe.now sums.old sums.new }
    {
        let mut at = self.g.start(to) + self.i;
        for k in (from..to).rev() {
            at = self.g.role_before(at);
            let d = self.load(at);
            sums.add_disk(&d);
        }
    }

    // All disks below `to`, two at a time, and the last alone where their number is odd. Where disks are lost there are up to
    // three runs of them, and the compiler leaves a step of two out of the loop over the chunks: those go one by one.
    fn add_pairs(self, to: usize, sums: &mut Sums)
        requires { to ≤ self.g.n }
        ensures { DisksAdded self.entry.g self.entry.i 0 to self.entry.stripe.now sums.old sums.new }
    {
        let mut at = self.g.start(to) + self.i;
        for m in 0..to / 2 {
            let above = self.g.role_before(at);
            at = self.g.role_before(above);
            let d = self.load(above);
            let e = self.load(at);
            sums.add_two_disks(&d, &e);
        }
        self.add_disks(0, to % 2, sums);
    }

    // The disks below `to` down to `from` without the lost ones, and after the last disk the stored parities. Most groups have
    // neither and are one run.
    fn add_group(self, pair: Pair, from: usize, to: usize, sums: &mut Sums)
        requires { (from ≤ to) × (to ≤ self.g.n) }
        ensures { GroupAdded self.entry.g self.entry.i pair.x pair.y from to self.entry.stripe.now sums.old sums.new }
    {
        if is_plain(pair, from, to) {
            self.add_disks(from, to, sums);
            return;
        }
        let k = self.add_within(pair.x.max(pair.y), from, to, sums);
        let k = self.add_within(pair.x.min(pair.y), from, k, sums);
        self.add_disks(from, k, sums);
        if from == 0 {
            let at = Stretch {
                g: self.g,
                i: self.i,
                w: WIDTH,
            };
            add_stored(at, self.stripe, pair, sums);
        }
    }

    // Those above a lost disk and the lost one as 00, if it is one of them. The first that is done.
    fn add_within(self, lost: usize, from: usize, to: usize, sums: &mut Sums) -> usize
        requires { (from ≤ to) × (to ≤ self.g.n) }
        ensures { AddedWithin self.entry.g self.entry.i lost from to self.entry.stripe.now sums.old result sums.new }
    {
        if lost < from {
            return to;
        }
        self.add_above(lost, to, sums)
    }
}

// Whether a buffer of this length is a stripe with a strip of columns from i on.
fn has_strip(g: Geometry, len: usize, i: usize) -> bool
    ensures { result ≡ has_strip g len i }
{
    shape::encode_refusal(g, len).is_ok() && STRIP <= g.b && i <= g.b - STRIP
}

// A group of disks in all chunks of a strip.
fn add_to_strip(
    g: Geometry,
    stripe: &[u8],
    i: usize,
    pair: Pair,
    from: usize,
    to: usize,
    strip: &mut [Sums; CHUNKS],
)
    requires { HasStrip g stripe.now i × (from < to) × (to ≤ g.n) × (strip.old ≡ over_strip g stripe.now i pair.x pair.y (staged g.n to)) }
    ensures { strip.new ≡ over_strip g stripe.now i pair.x pair.y (staged g.n from) }
{
    for m in 0..CHUNKS {
        let columns = Columns {
            g,
            stripe,
            i: i + WIDTH * m,
        };
        // A value of its own can stay in registers while the disks are added: in place this took a third longer.
        let mut sums = strip[m];
        columns.add_group(pair, from, to, &mut sums);
        strip[m] = sums;
    }
}

// Whether a group has neither lost role and is not the last.
fn is_plain(pair: Pair, from: usize, to: usize) -> bool
    ensures { result ≡ plain_group pair.x pair.y from to }
{
    is_outside(pair.x, from, to) && is_outside(pair.y, from, to) && 0 < from
}

fn is_outside(role: usize, from: usize, to: usize) -> bool
    ensures { result ≡ outside role from to }
{
    role < from || to <= role
}

// The stored parities of a stretch but for a lost one, each added to its sum. It is written into its calls, so that the compiler
// knows the width of a whole chunk.
#[inline(always)]
fn add_stored(at: Stretch, stripe: &[u8], pair: Pair, sums: &mut Sums)
    requires { Has at.g stripe.now at.i at.w }
    ensures { StoredAdded at.g.n (λ j. without pair.x pair.y (column_of at.g stripe.now at.i at.w j)) sums.old sums.new }
{
    let d = load_but(at, stripe, at.g.n, pair);
    chunk::add(&mut sums.p, &d);
    let d = load_but(at, stripe, at.g.n + 1, pair);
    chunk::add(&mut sums.q, &d);
}

// 00 where the role is lost. Here and above `at` and `stripe` stay two parameters, as in the public functions that give them.
fn load_but(at: Stretch, stripe: &[u8], role: usize, pair: Pair) -> [u8; WIDTH]
    ensures { result ≡ each (λ j. without pair.x pair.y (column_of at.g stripe.now at.i at.w j) role) }
{
    if pair.has(role) {
        return [0u8; WIDTH];
    }
    at.load(stripe, role)
}

// The parities of a page of columns. The disks of a pass lie below those of the one before, and the last has what is left.
fn set_page(g: Geometry, stripe: &mut [u8], i: usize)
    requires { WellShaped g stripe.old × (i + page ≤ g.b) }
    ensures { ColumnsMapped g i page (λ j c. encode_column reed_solomon g.n c) stripe.old stripe.new }
{
    let below = g.n.saturating_sub(PASS);
    pass_over(g, stripe, i, Begin { from: below });
    for m in 0..below.div_ceil(PASS) {
        let to = below - PASS * m;
        let from = to.saturating_sub(PASS);
        pass_over(g, stripe, i, Carry { from, to });
    }
}

// A pass over a page, chunk after chunk.
fn pass_over<P: Pass>(g: Geometry, stripe: &mut [u8], i: usize, pass: P)
    requires { WellShaped g stripe.old × (i + page ≤ g.b) × (P.from pass ≤ P.to pass g.n) × (P.from pass < g.n) × P.Known pass g.n }
    ensures { Passed g i page (P.from pass) (P.to pass g.n) stripe.old stripe.new }
{
    for m in 0..PAGE_CHUNKS {
        pass.chunk(g, stripe, i + WIDTH * m);
    }
}

// What a pass does to a chunk: the disks below one disk of n, down to another, are added to the sums.
trait Pass: Copy {
    ghost from: { Self → ℕ };

    ghost to: { Self → ℕ → ℕ };

    ghost Known: { Self → ℕ → Type 0 };

    fn chunk(self, g: Geometry, stripe: &mut [u8], i: usize)
        requires { Has g stripe.old i width × (from self ≤ to self g.n) × (from self < g.n) × Known self g.n }
        ensures { Passed g i width (from self) (to self g.n) stripe.old stripe.new };
}

// The first pass.
#[derive(Clone, Copy)]
struct Begin {
    from: usize,
}

impl Pass for Begin {
    ghost from = { λ it. it.from };

    ghost to = { λ it n. n };

    ghost Known = { λ it n. ⊤ };

    fn chunk(self, g: Geometry, stripe: &mut [u8], i: usize) {
        let columns = Columns { g, stripe, i };
        let mut sums = columns.highest();
        columns.add_disks(self.from, g.n - 1, &mut sums);
        set_sums(g, stripe, i, sums);
    }
}

// One more, to the sums that P and Q hold.
#[derive(Clone, Copy)]
struct Carry {
    from: usize,
    to: usize,
}

impl Pass for Carry {
    ghost from = { λ it. it.from };

    ghost to = { λ it n. it.to };

    ghost Known = { λ it n. it.to < n };

    fn chunk(self, g: Geometry, stripe: &mut [u8], i: usize) {
        let columns = Columns { g, stripe, i };
        let mut sums = Sums {
            p: columns.chunk(g.n),
            q: columns.chunk(g.n + 1),
        };
        columns.add_disks(self.from, self.to, &mut sums);
        set_sums(g, stripe, i, sums);
    }
}

// Both sums of a chunk, in the places of P and Q.
fn set_sums(g: Geometry, stripe: &mut [u8], i: usize, sums: Sums)
    requires { Has g stripe.old i width }
    ensures { ColumnsMapped g i width (λ j c. put g.n (get_or sums.p j 0) (put (g.n + 1) (get_or sums.q j 0) c)) stripe.old stripe.new }
{
    set_chunk(g, stripe, g.n + 1, i, sums.q);
    set_chunk(g, stripe, g.n, i, sums.p);
}

// What `stretch` sets, without its tests, as `Columns::chunk` loads.
fn set_chunk(g: Geometry, stripe: &mut [u8], role: usize, i: usize, new: [u8; WIDTH])
    requires { Has g stripe.old i width × (role < g.n + 2) }
    ensures { stripe.new ≡ set_on g role i width new stripe.old }
{
    let at = place(g, stripe, role, i);
    chunk::store(&mut stripe[at..at + WIDTH], new);
}

// Where the columns from i on begin in the block of a role.
fn place(g: Geometry, stripe: &[u8], role: usize, i: usize) -> usize
    requires { Has g stripe.now i width × (role < g.n + 2) }
    ensures { PlacedAt g stripe.now role i width result }
{
    g.start(role) + i
}

// What was lost, restored by a plan: in each column the bytes of the lost roles from the others. The
// columns are worked on in chunks. That a stripe has the roles of a plan stays a premise of the private functions: it speaks of two
// values, the plan and the number of disks, and a type of both would be made for one call.
#![tactic(auto)]

ghost use Rattle.std.specs.Prelude.{◌≡◌, ℕ, ◌+◌, ◌≤◌, ◌<◌};
ghost use Rattle.std.proofs.Common.{rules};
ghost use Rattle.column.specs.Column.{encode_column, reed_solomon};
ghost use Rattle.chunk.specs.Chunk.{width};
ghost use Rattle.losses.specs.declared.Plan.{Plan};
ghost use Rattle.losses.specs.Losses.{without, restored_by, solved, KnownPair, KnownPlan};
ghost use Rattle.shape.specs.Layout.{lift};
ghost use Rattle.shape.specs.Refusals.{WellShaped};
ghost use Rattle.shape.specs.Columns.{ColumnsMapped};
ghost use Rattle.stretch.specs.Stretch.{Has, column_of};
ghost use Rattle.sums.specs.Sums.{parities_of, sums_of};
ghost use Rattle.sums.specs.Strip.{strip};
ghost use Rattle.restore.specs.Restore.{known_plan, restored, Survivors};

use chunk::{Sums, WIDTH};
use gf256::Element;
use losses::{Pair, Plan, Rule};
use shape::Geometry;
use stretch::Stretch;
use sums::{CHUNKS, STRIP};

// Restores a stripe. What is no stripe, or has not the roles of the plan, stays as it is.
pub fn restore(g: Geometry, stripe: &mut [u8], plan: Plan)
    ensures { stripe.new ≡ restored g plan stripe.old }
{
    if shape::encode_refusal(g, stripe.len()).is_err() {
        return;
    }
    if !has_roles(g.n, plan) {
        return;
    }
    restore_known(g, stripe, plan);
}

// Whether a stripe with n data disks has the roles of a plan.
pub fn has_roles(n: usize, plan: Plan) -> bool
    ensures { result ≡ known_plan n plan }
{
    match plan {
        Plan::ByP(x) => stretch::has_role(n, x),
        Plan::FromData(_) => true,
        Plan::ByBoth(pair, _) => stretch::has_role(n, pair.x) && stretch::has_role(n, pair.y),
    }
}

// A block below a chunk is a part; others go by chunks, or by strips where that is faster. The plan is asked for here and not at
// each chunk, so that no closure or trait would be plainer.
fn restore_known(g: Geometry, stripe: &mut [u8], plan: Plan)
    requires { WellShaped g stripe.old × KnownPlan g.n plan }
    ensures { stripe.new ≡ lift g (λ i c. restored_by g.n plan c) stripe.old }
{
    if g.b < WIDTH {
        restore_part(g, stripe, plan);
        return;
    }
    match plan {
        Plan::ByP(_) => restore_columns(g, stripe, plan),
        Plan::FromData(both) => {
            if both {
                restore_parities(g, stripe);
            } else {
                restore_columns(g, stripe, plan);
            }
        }
        Plan::ByBoth(pair, rule) => {
            if sums::in_strips(g) {
                restore_by(g, stripe, StripByBoth { pair, rule });
            } else {
                restore_columns(g, stripe, plan);
            }
        }
    }
}

// Encode, in passes or by strips where that is faster. It is a rebuild of both parities: P is P* and Q is Q* of the data alone.
fn restore_parities(g: Geometry, stripe: &mut [u8])
    requires { WellShaped g stripe.old × (width ≤ g.b) }
    ensures { stripe.new ≡ lift g (λ i c. encode_column reed_solomon g.n c) stripe.old }
{
    if sums::in_passes(g) {
        sums::set_parities(g, stripe);
        return;
    }
    if sums::in_strips(g) {
        let step = StripByBoth {
            pair: Pair { x: g.n, y: g.n + 1 },
            rule: Rule::Carried(Element(0)),
        };
        restore_by(g, stripe, step);
        return;
    }
    restore_columns(g, stripe, Plan::FromData(true));
}

// By chunks. Here and in `restore_part`, too, the plan is not asked for at each chunk.
fn restore_columns(g: Geometry, stripe: &mut [u8], plan: Plan)
    requires { WellShaped g stripe.old × (width ≤ g.b) × KnownPlan g.n plan }
    ensures { stripe.new ≡ lift g (λ i c. restored_by g.n plan c) stripe.old }
{
    match plan {
        Plan::ByP(x) => restore_by(g, stripe, ByP { x }),
        Plan::FromData(both) => restore_by(g, stripe, FromData { both }),
        Plan::ByBoth(pair, rule) => restore_by(g, stripe, ByBoth { pair, rule }),
    }
}

// A block that a chunk can hold. It is written into no caller: beside the loops over whole chunks it took registers from them, and a
// rebuild of two disks with vectors of 256 bits took a fifth longer.
#[inline(never)]
fn restore_part(g: Geometry, stripe: &mut [u8], plan: Plan)
    requires { Has g stripe.old 0 g.b × KnownPlan g.n plan }
    ensures { stripe.new ≡ lift g (λ i c. restored_by g.n plan c) stripe.old }
{
    let at = Stretch { g, i: 0, w: g.b };
    match plan {
        Plan::ByP(x) => restore_by_p(at, stripe, x),
        Plan::FromData(both) => part_from_data(at, stripe, both),
        Plan::ByBoth(pair, rule) => part_by_both(at, stripe, pair, rule),
    }
}

// Q of a part and, where true, P. Its sums, and those of the next, are not made in `restore_part`, which would fill them all with 00
// first, for a plan that goes by P alone too.
fn part_from_data(at: Stretch, stripe: &mut [u8], both: bool)
    requires { Has at.g stripe.old at.i at.w }
    ensures { ColumnsMapped at.g at.i at.w (λ j c. restored_by at.g.n (Plan.FromData both) c) stripe.old stripe.new }
{
    let pair = Pair {
        x: at.g.n,
        y: at.g.n + 1,
    };
    let sums = sums::part_survivors(at, stripe, pair);
    set_from_data(at, stripe, both, sums);
}

// Both roles of a part.
fn part_by_both(at: Stretch, stripe: &mut [u8], pair: Pair, rule: Rule)
    requires { Has at.g stripe.old at.i at.w × KnownPair at.g.n pair }
    ensures { ColumnsMapped at.g at.i at.w (λ j c. solved at.g.n pair.x pair.y rule c) stripe.old stripe.new }
{
    let sums = sums::part_survivors(at, stripe, pair);
    set_solved(at, stripe, pair, rule, sums);
}

// Step after step, of which the last may take columns again: what was lost comes out the same. Each step has a loop of
// its own, so that no plan is asked for again at each chunk.
fn restore_by<S: Step>(g: Geometry, stripe: &mut [u8], step: S)
    requires { WellShaped g stripe.old × (S.COLUMNS ≤ g.b) × KnownPlan g.n (S.plan step) }
    ensures { stripe.new ≡ lift g (λ i c. restored_by g.n (S.plan step) c) stripe.old }
{
    for done in (0..g.b).step_by(S::COLUMNS) {
        let i = stretch::next_start(g.b, S::COLUMNS, done);
        step.restore(g, stripe, i);
    }
}

// One way to restore a number of columns at once, by a plan.
trait Step: Copy {
    ghost COLUMNS: { ℕ };

    const COLUMNS: usize;

    ghost plan: { Self → Plan };

    fn restore(self, g: Geometry, stripe: &mut [u8], i: usize)
        requires { WellShaped g stripe.old × (i + COLUMNS ≤ g.b) × KnownPlan g.n (plan self) }
        ensures { ColumnsMapped g i COLUMNS (λ j c. restored_by g.n (plan self) c) stripe.old stripe.new };

    ghost some: { 0 < COLUMNS };
}

#[derive(Clone, Copy)]
struct ByP {
    x: usize,
}

impl Step for ByP {
    ghost COLUMNS = { width };

    const COLUMNS: usize = WIDTH;

    ghost plan = { λ it. Plan.ByP it.x };

    fn restore(self, g: Geometry, stripe: &mut [u8], i: usize) {
        let at = Stretch { g, i, w: WIDTH };
        restore_by_p(at, stripe, self.x);
    }

    ghost some = { Prim.search rules };
}

#[derive(Clone, Copy)]
struct FromData {
    both: bool,
}

impl Step for FromData {
    ghost COLUMNS = { width };

    const COLUMNS: usize = WIDTH;

    ghost plan = { λ it. Plan.FromData it.both };

    fn restore(self, g: Geometry, stripe: &mut [u8], i: usize) {
        let sums = sums::parities(g, stripe, i);
        let at = Stretch { g, i, w: WIDTH };
        set_from_data(at, stripe, self.both, sums);
    }

    ghost some = { Prim.search rules };
}

#[derive(Clone, Copy)]
struct ByBoth {
    pair: Pair,
    rule: Rule,
}

impl Step for ByBoth {
    ghost COLUMNS = { width };

    const COLUMNS: usize = WIDTH;

    ghost plan = { λ it. Plan.ByBoth it.pair it.rule };

    fn restore(self, g: Geometry, stripe: &mut [u8], i: usize) {
        let sums = sums::survivors(g, stripe, i, self.pair);
        let at = Stretch { g, i, w: WIDTH };
        match self.rule {
            Rule::Mixed(a, b) => set_mixed(at, stripe, self.pair, a, b, sums),
            Rule::Carried(c) => set_carried(at, stripe, self.pair, c, sums),
        }
    }

    ghost some = { Prim.search rules };
}

// The same of a strip, which is a type of its own since a step's columns are its type's, from the sums of its chunks.
#[derive(Clone, Copy)]
struct StripByBoth {
    pair: Pair,
    rule: Rule,
}

impl Step for StripByBoth {
    ghost COLUMNS = { strip };

    const COLUMNS: usize = STRIP;

    ghost plan = { λ it. Plan.ByBoth it.pair it.rule };

    fn restore(self, g: Geometry, stripe: &mut [u8], i: usize) {
        let mut strip = [Sums::ZERO; CHUNKS];
        sums::strip_survivors(g, stripe, i, self.pair, &mut strip);
        for m in 0..CHUNKS {
            let at = Stretch {
                g,
                i: i + WIDTH * m,
                w: WIDTH,
            };
            set_solved(at, stripe, self.pair, self.rule, strip[m]);
        }
    }

    ghost some = { Prim.search rules };
}

// The bytes of one role in a stretch, by equation 1 alone. It is written into its calls, so that the compiler knows the width of
// a whole chunk.
#[inline(always)]
fn restore_by_p(at: Stretch, stripe: &mut [u8], x: usize)
    requires { Has at.g stripe.old at.i at.w × (x < at.g.n + 2) }
    ensures { ColumnsMapped at.g at.i at.w (λ j c. restored_by at.g.n (Plan.ByP x) c) stripe.old stripe.new }
{
    let p = sums::sum_without(at, stripe, x);
    at.set(stripe, x, p);
}

// Q of a stretch and, where true, P, as the data give them. Written into its calls for the same reason.
#[inline(always)]
fn set_from_data(at: Stretch, stripe: &mut [u8], both: bool, sums: Sums)
    requires { Has at.g stripe.old at.i at.w × (sums ≡ parities_of at.g.n (column_of at.g stripe.old at.i at.w)) }
    ensures { ColumnsMapped at.g at.i at.w (λ j c. restored_by at.g.n (Plan.FromData both) c) stripe.old stripe.new }
{
    let p = sums.p;
    let q = sums.q;
    at.set(stripe, at.g.n + 1, q);
    if both {
        at.set(stripe, at.g.n, p);
    }
}

// The bytes of both roles in a part or in a chunk of a strip, solved from P* and Q* without them. Written into its calls for the
// same reason.
#[inline(always)]
fn set_solved(at: Stretch, stripe: &mut [u8], pair: Pair, rule: Rule, sums: Sums)
    requires { Has at.g stripe.old at.i at.w × KnownPair at.g.n pair × Survivors at.g stripe.old at.i at.w pair sums }
    ensures { ColumnsMapped at.g at.i at.w (λ j c. solved at.g.n pair.x pair.y rule c) stripe.old stripe.new }
{
    let new = losses::solve(rule, sums);
    let on_x = new.first;
    let on_y = new.second;
    at.set(stripe, pair.y, on_y);
    at.set(stripe, pair.x, on_x);
}

// The first is a p + b q, the second what is left of p. `set_solved` is not called here: this is faster for a chunk
// (docs/DECISIONS.md).
fn set_mixed(at: Stretch, stripe: &mut [u8], pair: Pair, a: Element, b: Element, sums: Sums)
    requires { Has at.g stripe.old at.i at.w × KnownPair at.g.n pair × (sums ≡ sums_of at.g.n (λ j. without pair.x pair.y (column_of at.g stripe.old at.i at.w j))) }
    ensures { ColumnsMapped at.g at.i at.w (λ j c. solved at.g.n pair.x pair.y (Rule.Mixed a b) c) stripe.old stripe.new }
{
    let mut p = sums.p;
    let q = sums.q;
    let first = products::combine(a, p, b, q);
    chunk::add(&mut p, &first);
    at.set(stripe, pair.y, p);
    at.set(stripe, pair.x, first);
}

// The first is p, the second q + c p. Apart from `set_solved` for the same reason.
fn set_carried(at: Stretch, stripe: &mut [u8], pair: Pair, c: Element, sums: Sums)
    requires { Has at.g stripe.old at.i at.w × KnownPair at.g.n pair × (sums ≡ sums_of at.g.n (λ j. without pair.x pair.y (column_of at.g stripe.old at.i at.w j))) }
    ensures { ColumnsMapped at.g at.i at.w (λ j c'. solved at.g.n pair.x pair.y (Rule.Carried c) c') stripe.old stripe.new }
{
    let p = sums.p;
    let mut q = sums.q;
    products::add_product(&mut q, c, p);
    at.set(stripe, pair.y, q);
    at.set(stripe, pair.x, p);
}

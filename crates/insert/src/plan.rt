// An insertion to be made into a strap: where, and with which shares of its ends' masses.
ghost use Rattle.std.specs.Prelude.{◌≡◌, ◌&&◌, ◌||◌, ◌<◌, ◌≤◌, ◌/◌, length};
ghost use Rattle.std.specs.Float.Ieee.{lt, le, eq};
ghost use Rattle.lists.specs.Lists.{pick};
ghost use Rattle.float.specs.Numbers.{minus, one, half, zero32};
ghost use Rattle.model.specs.Cut.{clamp_to_of};
ghost use Rattle.links.specs.Linked.{EdgesLinked};
ghost use Rattle.insert.specs.Plans.{PlanRoom, PlanIs, InsertableRoom, InsertableIs};

use crate::shares;
use mesh::EdgeRow;

// Edge `number` is to be opened at the fraction `at`; `first` and `second` are the shares of its ends, and `before` particles are there.
#[derive(Clone, Copy)]
pub struct Plan {
    pub number: usize,
    pub row: EdgeRow,
    pub at: f32,
    pub first: f32,
    pub second: f32,
    pub before: usize,
}

// t brought into the range from lo to hi.
fn clamp_to(lo: f32, hi: f32, t: f32) -> f32
    ensures { result ≡ clamp_to_of lo hi t }
{
    let mut u = t;
    if u < lo {
        u = lo;
    }
    if hi < u { hi } else { u }
}

// The end that a crossing at t is near to.
pub fn near_end(a: usize, b: usize, t: f32) -> usize
    ensures { result ≡ pick (lt t half) a b }
{
    if t < 0.5 { a } else { b }
}

// Is a crossing at t wanted: away from the ends, or with a near end that is pinned?
fn wanted(f: f32, t: f32, inverse: f32) -> bool
    ensures { result ≡ (eq inverse zero32 || (le f t && le t (minus one f))) }
{
    if inverse == 0.0 {
        return true;
    }
    if f <= t {
        return t <= 1.0 - f;
    }
    false
}

// The insertion into edge `number` at t.
pub fn plan_at(
    f: f32,
    number: usize,
    t: f32,
    n: usize,
    e: usize,
    points: &[f32],
    ends: &[usize],
    lengths: &[f32],
    table: &[u16],
) -> Plan
    requires { PlanRoom number n e (length points.now) ends.now (length lengths.now) × EdgesLinked e ends.now table.now }
    ensures { PlanIs f number t n e points.now ends.now lengths.now result }
{
    let row = copies::edges::edge_at(number, ends, lengths);
    let totals = shares::strap_totals(row.a, row.b, e, ends, lengths, table);
    let first = shares::share_of(row.a, row.initial, totals.first, points);
    let second = shares::share_of(row.b, row.initial, totals.second, points);
    Plan {
        number: number,
        row: row,
        at: clamp_to(f, 1.0 - f, t),
        first: first,
        second: second,
        before: n,
    }
}

// Is the insertion of a crossing at t to be made: is it wanted, and has the strap mass and length?
pub fn insertable(f: f32, t: f32, plan: Plan, points: &[f32]) -> bool
    requires { InsertableRoom plan (length points.now) }
    ensures { InsertableIs f t plan points.now result }
{
    let row = plan.row;
    let p = points.len() / mesh::POINT_COLUMNS;
    let near = near_end(row.a, row.b, t);
    if !wanted(f, t, points[5 * p + near]) {
        return false;
    }
    if 0.0 < plan.first + plan.second {
        return 0.0 < row.initial;
    }
    false
}

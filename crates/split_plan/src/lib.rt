// A split to be made, read off the tables of a fan and its groups: weights, rings, directions.
#![tactic(auto)]

ghost use Rattle.std.specs.Prelude.{◌≡◌, ◌+◌, ◌*◌, ◌/◌, ◌<◌, ◌≤◌, length, take, drop};
ghost use Rattle.lists.specs.Lists.{stands};
ghost use Rattle.split_plan.specs.Opened.{RingRoom, mass_by, place_in, rest_in};
ghost use Rattle.model.specs.Split.{better as better_of};
ghost use Rattle.split_plan.specs.Answers.{RingHas, NextGroup, InRing, Meets, Parted, WeightIs, TotalIs, score_by, best_is, RowRoom, BestIn, FanRoom, FanBest, TowardRoom, TowardIs, CopyIs};
ghost use Rattle.mesh.specs.Widths.{point_columns};

use blade::Point;

// The best score so far, and its group.
#[derive(Clone, Copy)]
pub struct Best {
    pub score: f32,
    pub group: usize,
}

// Is x a corner of row i, of k corners?
fn row_has(x: usize, i: usize, k: usize, verts: &[usize]) -> bool
    requires { i * k + k ≤ length verts.now }
    ensures { result ≡ stands x (take k (drop (i * k) verts.now)) }
{
    let at = i * k;
    let end = at + k;
    fan::stands_in(x, &verts[at..end])
}

// Does some part of group g hold x?
pub fn ring_has(x: usize, g: usize, n: usize, k: usize, verts: &[usize], groups: &[usize]) -> bool
    requires { RingRoom n k (length verts.now) (length groups.now) }
    ensures { RingHas x g n k verts.now groups.now result }
{
    for i in 0..n {
        if groups[i] == g {
            if row_has(x, i, k, verts) {
                return true;
            }
        }
    }
    false
}

// The least group from `from` on, below count, that holds x; else count.
pub fn next_group(
    x: usize,
    from: usize,
    count: usize,
    n: usize,
    k: usize,
    verts: &[usize],
    groups: &[usize],
) -> usize
    requires { RingRoom n k (length verts.now) (length groups.now) }
    ensures { NextGroup x from count n k verts.now groups.now result }
{
    let mut best = count;
    for i in 0..n {
        let g = groups[i];
        if from <= g {
            if g < best {
                if row_has(x, i, k, verts) {
                    best = g;
                }
            }
        }
    }
    best
}

// Does some part hold x?
pub fn in_ring(x: usize, n: usize, k: usize, verts: &[usize]) -> bool
    requires { RingRoom n k (length verts.now) n }
    ensures { InRing x n k verts.now result }
{
    for i in 0..n {
        if row_has(x, i, k, verts) {
            return true;
        }
    }
    false
}

// Does a group hold both x and y?
fn meets(x: usize, y: usize, n: usize, k: usize, verts: &[usize], groups: &[usize]) -> bool
    requires { RingRoom n k (length verts.now) (length groups.now) }
    ensures { Meets x y n k verts.now groups.now result }
{
    for i in 0..n {
        if row_has(x, i, k, verts) {
            if ring_has(y, groups[i], n, k, verts, groups) {
                return true;
            }
        }
    }
    false
}

// Are x and y neighbours of v with no common group?
pub fn parted(x: usize, y: usize, n: usize, k: usize, verts: &[usize], groups: &[usize]) -> bool
    requires { RingRoom n k (length verts.now) (length groups.now) }
    ensures { Parted x y n k verts.now groups.now result }
{
    if !in_ring(x, n, k, verts) {
        return false;
    }
    if !in_ring(y, n, k, verts) {
        return false;
    }
    !meets(x, y, n, k, verts, groups)
}

// The weight of group g: its measures, added in order.
pub fn weight_of(g: usize, n: usize, groups: &[usize], measures: &[f32]) -> f32
    requires { (n ≤ length groups.now) × (n ≤ length measures.now) }
    ensures { WeightIs g n groups.now measures.now result }
{
    let mut w: f32 = 0.0;
    for i in 0..n {
        if groups[i] == g {
            let m = measures[i];
            w = w + m;
        }
    }
    w
}

// The weights of all groups, added in order.
pub fn total_weight(n: usize, count: usize, groups: &[usize], measures: &[f32]) -> f32
    requires { (n ≤ length groups.now) × (n ≤ length measures.now) × (count ≤ 2048) }
    ensures { TotalIs n count groups.now measures.now result }
{
    let mut total: f32 = 0.0;
    for g in 0..count {
        let w = weight_of(g, n, groups, measures);
        total = total + w;
    }
    total
}

// The mass of a group of weight w, of a mass m that `count` groups of weight `total` share.
pub fn mass_of(m: f32, w: f32, total: f32, count: usize) -> f32
    requires { count ≤ 2048 }
    ensures { result ≡ mass_by m w total count }
{
    if 0.0 < total {
        return m * w / total;
    }
    m / (count as f32)
}

// Where particle w is.
pub fn place(w: usize, points: &[f32]) -> Point
    requires { w < length points.now / point_columns }
    ensures { result ≡ place_in points.now w }
{
    let size = points.len() / mesh::POINT_COLUMNS;
    let next = size + w;
    Point {
        x: points[w],
        y: points[next],
    }
}

// Where it rests.
pub fn rest_point(w: usize, points: &[f32]) -> Point
    requires { w < length points.now / point_columns }
    ensures { result ≡ rest_in points.now w }
{
    let size = points.len() / mesh::POINT_COLUMNS;
    let at = 2 * size + w;
    let next = 3 * size + w;
    Point {
        x: points[at],
        y: points[next],
    }
}

// How well d lies in the direction dir.
fn score(d: Point, dir: Point) -> f32
    ensures { result ≡ score_by d dir }
{
    let size = blade::length(d) * blade::length(dir);
    blade::dot(d, dir) / float::larger::larger(size, 1e-12)
}

// A higher score takes over, an equal one does not.
fn better(b: Best, s: f32, g: usize) -> Best
    ensures { best_is result ≡ better_of (best_is b) s g }
{
    if b.score < s {
        return Best { score: s, group: g };
    }
    b
}

// Each corner of one part of group g, besides v, in turn.
fn best_in(
    b: Best,
    dir: Point,
    g: usize,
    v: usize,
    home: Point,
    row: &[usize],
    points: &[f32],
) -> Best
    requires { RowRoom v home row.now points.now }
    ensures { BestIn b dir g v row.now points.now result }
{
    let mut best = b;
    for i in 0..row.len() {
        let w = row[i];
        if w != v {
            let d = rest_point(w, points) - home;
            best = better(best, score(d, dir), g);
        }
    }
    best
}

// Each part in turn.
fn fan_best(
    b: Best,
    dir: Point,
    v: usize,
    home: Point,
    n: usize,
    k: usize,
    verts: &[usize],
    groups: &[usize],
    points: &[f32],
) -> Best
    requires { FanRoom v home n k verts.now groups.now points.now }
    ensures { FanBest b dir v n k verts.now groups.now points.now result }
{
    let mut best = b;
    for i in 0..n {
        let at = i * k;
        let end = at + k;
        let g = groups[i];
        best = best_in(best, dir, g, v, home, &verts[at..end], points);
    }
    best
}

// The group whose parts point best from v to x in the rest shape.
pub fn group_toward(
    x: usize,
    v: usize,
    n: usize,
    k: usize,
    verts: &[usize],
    groups: &[usize],
    points: &[f32],
) -> usize
    requires { TowardRoom x v n k verts.now groups.now points.now }
    ensures { TowardIs x v n k verts.now groups.now points.now result }
{
    let home = rest_point(v, points);
    let start = Point { x: 0.0, y: 0.0 };
    let dir = start + (rest_point(x, points) - home);
    let none = Best {
        score: -3.4028235e38,
        group: 0,
    };
    fan_best(none, dir, v, home, n, k, verts, groups, points).group
}

// The number that stands for v in group g, where `before` particles were there before the copies.
pub fn copy_number(v: usize, before: usize, count: usize, g: usize) -> usize
    requires { before + count ≤ 65536 }
    ensures { CopyIs v before count g result }
{
    if g == 0 {
        return v;
    }
    if g < count {
        return before + g - 1;
    }
    v
}

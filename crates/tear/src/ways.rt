// Ways to open an edge: the sides of a fan across it, their mean load, and which way goes first.
ghost use Rattle.std.specs.Prelude.{◌≡◌, ◌&&◌, ◌/◌, ◌<◌, ◌≤◌, length, take, ltb};
ghost use Rattle.lists.specs.Lists.{stands};
ghost use Rattle.float.specs.Order.{total_cmp_of};
ghost use Rattle.elements.specs.Table.{kind_is};
ghost use Rattle.model.specs.Crack.{ahead};
ghost use Rattle.tear.specs.Ways.{RowIn, offsets_by, side_by, SidesRoom, FarSides, LoadHas, LoadIs, MeanRoom, MeanTold, two_by};
ghost use Rattle.mesh.specs.Widths.{point_columns};

use blade::Point;
use elements::Kind;
use std::cmp::Ordering;

// The offsets of a row's corners from home in the rest shape, added.
fn offsets(home: Point, row: &[usize], points: &[f32]) -> Point
    requires { RowIn row.now (length points.now) }
    ensures { result ≡ offsets_by home row.now points.now }
{
    let mut s = Point { x: 0.0, y: 0.0 };
    for i in 0..row.len() {
        let w = row[i];
        s = s + (split_plan::rest_point(w, points) - home);
    }
    s
}

// The side of a row's element: 1 where it lies beyond the line through home across the direction.
fn side_of(home: Point, dir: Point, row: &[usize], points: &[f32]) -> usize
    requires { RowIn row.now (length points.now) }
    ensures { result ≡ side_by home dir row.now points.now }
{
    if 0.0 < blade::dot(offsets(home, row, points), dir) {
        return 1;
    }
    0
}

// The sides of n rows, of k corners each, across the edge from v to w.
pub fn far_sides(
    v: usize,
    w: usize,
    n: usize,
    k: usize,
    verts: &[usize],
    points: &[f32],
    sides: &mut [usize],
)
    requires { SidesRoom v w n k verts.now (length points.now) (length sides.old) }
    ensures { FarSides v w n k verts.now points.now sides.new }
{
    let home = split_plan::rest_point(v, points);
    let dir = split_plan::rest_point(w, points) - home;
    let mut a: usize = 0;
    for i in 0..n {
        let b = a + k;
        sides[i] = side_of(home, dir, &verts[a..b], points);
        a = b;
    }
}

// The load of element number i: a triangle's as it was read, a strap's its stress.
fn load_of(kind: Kind, i: usize, loads: &[f32], lengths: &[f32]) -> f32
    requires { LoadHas (kind_is kind) i (length loads.now) (length lengths.now) }
    ensures { LoadIs (kind_is kind) i loads.now lengths.now result }
{
    match kind {
        Kind::Triangles => loads[i],
        Kind::Straps => {
            let m = lengths.len() / mesh::LENGTH_COLUMNS;
            lengths[3 * m + i]
        }
        Kind::Nothing => 0.0,
    }
}

// The mean load of the elements of side 1, of n.
pub fn mean_load(
    kind: Kind,
    n: usize,
    numbers: &[usize],
    sides: &[usize],
    loads: &[f32],
    lengths: &[f32],
) -> f32
    requires { MeanRoom (kind_is kind) n numbers.now (length sides.now) (length loads.now) (length lengths.now) }
    ensures { MeanTold (kind_is kind) n numbers.now sides.now loads.now lengths.now result }
{
    let mut s: f32 = 0.0;
    let mut far: usize = 0;
    for i in 0..n {
        if sides[i] == 1 {
            let number = numbers[i];
            s = s + load_of(kind, number, loads, lengths);
            far += 1;
        }
    }
    s / (far as f32)
}

// Do both sides stand in a list?
fn both_sides(sides: &[usize]) -> bool
    ensures { result ≡ stands 0 sides.now && stands 1 sides.now }
{
    if fan::stands_in(0, sides) {
        return fan::stands_in(1, sides);
    }
    false
}

// Is v not pinned, and has its fan of n elements both sides?
pub fn two_sided(v: usize, n: usize, sides: &[usize], points: &[f32]) -> bool
    requires { (n ≤ length sides.now) × (v < length points.now / point_columns) }
    ensures { result ≡ two_by v (take n sides.now) points.now }
{
    let size = points.len() / mesh::POINT_COLUMNS;
    if points[5 * size + v] != 0.0 {
        return both_sides(&sides[..n]);
    }
    false
}

// Does the way of load p at v go before that of load q at w?
pub fn goes_first(p: f32, v: usize, q: f32, w: usize) -> bool
    ensures { result ≡ ahead (total_cmp_of p q) (ltb v w) }
{
    let o = float::order::total_cmp(p, q);
    match o {
        Some(Ordering::Less) => false,
        Some(Ordering::Equal) => v < w,
        Some(Ordering::Greater) => true,
        None => v < w,
    }
}

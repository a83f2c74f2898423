// Marks of particles: the candidates of a cut, the particles near a split, and the pinched.
ghost use Rattle.std.specs.Prelude.{◌≡◌, [], ◌∷◌, ◌/◌, ◌<◌, ◌≤◌, length};
ghost use Rattle.lists.specs.Lists.{any};
ghost use Rattle.model.specs.Cut.{hit_by};
ghost use Rattle.marks.specs.Marking.{MarkedBy, alike_by, BesideTold, rule_is, blade_by, met_in, met_of, CandidateRoom, CandidatesMarked, NearMarked, SplitFound, marked?, near_row, PinchedRoom, PinchedMarked};
ghost use Rattle.mesh.specs.Widths.{point_columns, entry_words};

use crate::Rule;
use blade::{Hit, Point};
use split_plan::place;

// Marks w with 1, if it has a place.
fn mark(w: usize, marks: &mut [usize])
    ensures { MarkedBy (w ∷ []) marks.old marks.new }
{
    if w < marks.len() {
        marks[w] = 1;
    }
}

// The blade test of a rule.
pub fn tested(rule: Rule, b0: Point, b1: Point, p: Point, q: Point) -> Hit
    ensures { result ≡ hit_by (rule_is rule) b0 b1 p q }
{
    match rule {
        Rule::Rounded => blade::blade_hit(b0, b1, p, q),
        Rule::Signs => exact::hit_by_signs(b0, b1, p, q),
    }
}

// Is the product of each two above 0?
fn alike(x: f32, y: f32, z: f32) -> bool
    ensures { result ≡ alike_by x y z }
{
    if x * y > 0.0 {
        if x * z > 0.0 {
            return y * z > 0.0;
        }
    }
    false
}

// Do x, y and z lie strictly on one side of the blade's line, so that it meets no side between them? The products of their offsets are those of the blade test.
// In edition 2 each side has its own test.
pub fn beside(
    rule: Rule,
    b0: Point,
    b1: Point,
    x: usize,
    y: usize,
    z: usize,
    points: &[f32],
) -> bool
    requires { (x < length points.now / point_columns) × (y < length points.now / point_columns)
        × (z < length points.now / point_columns) }
    ensures { BesideTold (blade_by rule b0 b1) points.now x y z result }
{
    match rule {
        Rule::Rounded => {
            let dx = blade::offset(b0, b1, place(x, points));
            let dy = blade::offset(b0, b1, place(y, points));
            let dz = blade::offset(b0, b1, place(z, points));
            alike(dx, dy, dz)
        }
        Rule::Signs => false,
    }
}

// Marks x and y, if the blade meets the side from x to y.
fn mark_pair(
    rule: Rule,
    b0: Point,
    b1: Point,
    x: usize,
    y: usize,
    points: &[f32],
    marks: &mut [usize],
)
    requires { (x < length points.now / point_columns) × (y < length points.now / point_columns) }
    ensures { MarkedBy (met_in (blade_by rule b0 b1) points.now (x, y)) marks.old marks.new }
{
    let hit = tested(rule, b0, b1, place(x, points), place(y, points));
    let Hit::Hit(_, _) = hit else {
        return;
    };
    mark(x, marks);
    mark(y, marks);
}

// The same of each side of a triangle.
fn mark_sides(
    rule: Rule,
    b0: Point,
    b1: Point,
    x: usize,
    y: usize,
    z: usize,
    points: &[f32],
    marks: &mut [usize],
)
    requires { (x < length points.now / point_columns) × (y < length points.now / point_columns)
        × (z < length points.now / point_columns) }
    ensures { MarkedBy (met_of (blade_by rule b0 b1) points.now (x ∷ y ∷ z ∷ [])) marks.old
        marks.new }
{
    if beside(rule, b0, b1, x, y, z, points) {
        return;
    }
    mark_pair(rule, b0, b1, x, y, points, marks);
    mark_pair(rule, b0, b1, x, z, points, marks);
    mark_pair(rule, b0, b1, y, z, points, marks);
}

// Marks each particle that ends a side that the blade meets, of the first t triangles, and no other.
pub fn mark_candidates(
    rule: Rule,
    b0: Point,
    b1: Point,
    t: usize,
    points: &[f32],
    corners: &[usize],
    marks: &mut [usize],
)
    requires { CandidateRoom t corners.now (length points.now) }
    ensures { CandidatesMarked (blade_by rule b0 b1) t points.now corners.now marks.new }
{
    columns::clear(0, marks);
    let size = corners.len() / mesh::CORNER_COLUMNS;
    for i in 0..t {
        let second = size + i;
        let third = 2 * size + i;
        mark_sides(
            rule,
            b0,
            b1,
            corners[i],
            corners[second],
            corners[third],
            points,
            marks,
        );
    }
}

// Marks the copy and the source of each split of the first l entries of the log, and no other.
pub fn mark_near(l: usize, log: &[u32], near: &mut [usize])
    requires { l ≤ length log.now / entry_words }
    ensures { NearMarked l log.now near.new }
{
    columns::clear(0, near);
    for i in 0..l {
        let at = 6 * i;
        if log[at] == 1 {
            mark(log[at + 1] as usize, near);
            mark(log[at + 2] as usize, near);
        }
    }
}

// Do the first l entries of the log tell of a split?
pub fn any_split(l: usize, log: &[u32]) -> bool
    requires { l ≤ length log.now / entry_words }
    ensures { SplitFound l log.now result }
{
    for i in 0..l {
        let at = 6 * i;
        if log[at] == 1 {
            return true;
        }
    }
    false
}

// Is one of three particles marked?
fn one_near(x: usize, y: usize, z: usize, near: &[usize]) -> bool
    requires { (x < length near.now) × (y < length near.now) × (z < length near.now) }
    ensures { result ≡ any (marked? near.now) (x ∷ y ∷ z ∷ []) }
{
    if near[x] == 1 {
        return true;
    }
    if near[y] == 1 {
        return true;
    }
    near[z] == 1
}

// Marks all three, if one of them is near.
fn mark_three(x: usize, y: usize, z: usize, near: &[usize], marks: &mut [usize])
    requires { (x < length near.now) × (y < length near.now) × (z < length near.now) }
    ensures { MarkedBy (near_row near.now (x ∷ y ∷ z ∷ [])) marks.old marks.new }
{
    if one_near(x, y, z, near) {
        mark(x, marks);
        mark(y, marks);
        mark(z, marks);
    }
}

// Marks the corners of each of the first t triangles with a near corner, and no other.
pub fn mark_pinched(t: usize, corners: &[usize], near: &[usize], marks: &mut [usize])
    requires { PinchedRoom t corners.now (length near.now) }
    ensures { PinchedMarked t corners.now near.now marks.new }
{
    columns::clear(0, marks);
    let size = corners.len() / mesh::CORNER_COLUMNS;
    for i in 0..t {
        let second = size + i;
        let third = 2 * size + i;
        mark_three(corners[i], corners[second], corners[third], near, marks);
    }
}

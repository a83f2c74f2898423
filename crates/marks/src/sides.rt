// The sides of a fan by the blade.
ghost use Rattle.std.specs.Prelude.{◌≡◌, ◌/◌, ◌<◌, length};
ghost use Rattle.model.specs.Elements.{Triangles, corners_per_of};
ghost use Rattle.elements.specs.Table.{kind_is};
ghost use Rattle.marks.specs.Marking.{blade_by, blade_from};
ghost use Rattle.marks.specs.declared.Rule.TheVariants.{Signs};
ghost use Rattle.marks.specs.Sided.{RowIn, left_in, kept_in, side_by, RowsIn, SidesRoom, SidesBy};
ghost use Rattle.marks.specs.Signed.{TriangleIn, sign_at, on?, kept_sign_in, side_of_sign_of};

use crate::Rule;
use blade::Point;
use elements::Kind;
use exact::Sign;
use split_plan::place;

// Is the middle of two or three corners to the left of the blade?
fn left_of(b0: Point, b1: Point, row: &[usize], points: &[f32]) -> bool
    requires { RowIn row.now (length points.now) }
    ensures { result ≡ left_in (blade_from b0 b1) points.now row.now }
{
    let x = place(row[0], points);
    let y = place(row[1], points);
    if row.len() == 3 {
        let z = place(row[2], points);
        return 0.0 < blade::offset(b0, b1, blade::centroid_of_three(x, y, z));
    }
    0.0 < blade::offset(b0, b1, blade::centroid_of_two(x, y))
}

// The kept side: v's own, or that of the first row where v lies on the blade.
fn kept_side(
    b0: Point,
    b1: Point,
    v: usize,
    k: usize,
    n: usize,
    verts: &[usize],
    points: &[f32],
) -> bool
    requires { RowsIn v k n verts.now (length points.now) }
    ensures { result ≡ kept_in (blade_from b0 b1) points.now v k n verts.now }
{
    let own = blade::offset(b0, b1, place(v, points));
    if own != 0.0 {
        return 0.0 < own;
    }
    if n == 0 {
        return false;
    }
    left_of(b0, b1, &verts[0..k], points)
}

// 0 on the kept side, else 1.
fn side_of(kept: bool, left: bool) -> usize
    ensures { result ≡ side_by kept left }
{
    if kept {
        return if left { 0 } else { 1 };
    }
    if left { 1 } else { 0 }
}

// The side of each of the n elements of v's fan, by rounded numbers.
fn rounded_sides(
    kind: Kind,
    b0: Point,
    b1: Point,
    v: usize,
    n: usize,
    verts: &[usize],
    points: &[f32],
    sides: &mut [usize],
)
    requires { SidesRoom v (corners_per_of (kind_is kind)) n verts.now (length points.now) (length sides.old) }
    ensures { SidesBy (kind_is kind) (blade_from b0 b1) v n verts.now points.now sides.new }
{
    let k = elements::corners_per(kind);
    let kept = kept_side(b0, b1, v, k, n, verts, points);
    let mut at: usize = 0;
    for i in 0..n {
        let end = at + k;
        let left = left_of(b0, b1, &verts[at..end], points);
        sides[i] = side_of(kept, left);
        at = end;
    }
}

// To which side the middle of a triangle lies, by its corners' offsets.
fn row_sign(b0: Point, b1: Point, row: &[usize], points: &[f32]) -> Sign
    requires { TriangleIn row.now (length points.now) }
    ensures { result ≡ sign_at (blade_by Signs b0 b1) points.now row.now }
{
    let x = blade::offset(b0, b1, place(row[0], points));
    let y = blade::offset(b0, b1, place(row[1], points));
    let z = blade::offset(b0, b1, place(row[2], points));
    exact::sign_of_sum(x, y, z)
}

// Is it on the line?
fn on_line(s: Sign) -> bool
    ensures { result ≡ on? s }
{
    match s {
        Sign::Left => false,
        Sign::On => true,
        Sign::Right => false,
    }
}

// The kept side: v's own, or that of the first triangle off the line where v lies on it.
fn kept_sign(b0: Point, b1: Point, v: usize, n: usize, verts: &[usize], points: &[f32]) -> Sign
    requires { RowsIn v 3 n verts.now (length points.now) }
    ensures { result ≡ kept_sign_in (blade_by Signs b0 b1) points.now v n verts.now }
{
    let own = exact::sign_of(blade::offset(b0, b1, place(v, points)));
    if !on_line(own) {
        return own;
    }
    let mut at: usize = 0;
    for i in 0..n {
        let end = at + 3;
        let s = row_sign(b0, b1, &verts[at..end], points);
        if !on_line(s) {
            return s;
        }
        at = end;
    }
    Sign::On
}

// 1 for what lies opposite to the kept side, else 0.
fn side_of_sign(kept: Sign, s: Sign) -> usize
    ensures { result ≡ side_of_sign_of kept s }
{
    if exact::opposed(kept, s) { 1 } else { 0 }
}

// The side of each of the n triangles of v's fan, by signs.
fn sign_sides(
    b0: Point,
    b1: Point,
    v: usize,
    n: usize,
    verts: &[usize],
    points: &[f32],
    sides: &mut [usize],
)
    requires { SidesRoom v 3 n verts.now (length points.now) (length sides.old) }
    ensures { SidesBy Triangles (blade_by Signs b0 b1) v n verts.now points.now sides.new }
{
    let kept = kept_sign(b0, b1, v, n, verts, points);
    let mut at: usize = 0;
    for i in 0..n {
        let end = at + 3;
        let s = row_sign(b0, b1, &verts[at..end], points);
        sides[i] = side_of_sign(kept, s);
        at = end;
    }
}

// The side of each of the n elements of v's fan, by the rule of the blade. Signs decide for triangles alone.
pub fn blade_sides(
    rule: Rule,
    kind: Kind,
    b0: Point,
    b1: Point,
    v: usize,
    n: usize,
    verts: &[usize],
    points: &[f32],
    sides: &mut [usize],
)
    requires { SidesRoom v (corners_per_of (kind_is kind)) n verts.now (length points.now) (length sides.old) }
    ensures { SidesBy (kind_is kind) (blade_by rule b0 b1) v n verts.now points.now sides.new }
{
    let Rule::Signs = rule else {
        rounded_sides(kind, b0, b1, v, n, verts, points, sides);
        return;
    };
    match kind {
        Kind::Triangles => sign_sides(b0, b1, v, n, verts, points, sides),
        Kind::Straps => rounded_sides(kind, b0, b1, v, n, verts, points, sides),
        Kind::Nothing => rounded_sides(kind, b0, b1, v, n, verts, points, sides),
    }
}

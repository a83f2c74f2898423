// How many elements a fan has, counted where they stand, without a table of them.
ghost use Rattle.std.specs.Prelude.{◌≡◌, ◌&&◌, [], ◌∷◌, ◌/◌, ◌≤◌, eqb, length};
ghost use Rattle.lists.specs.Lists.{pick, stands};
ghost use Rattle.mesh_calls.specs.Fans.{TrianglesWith, StrapsWith, FanCounted};
ghost use Rattle.mesh.specs.Widths.{corner_columns, end_columns};

use elements::Kind;
use mesh::Counts;

// 1 where v is one of three corners, else 0.
fn triangle_holds(v: usize, a: usize, b: usize, c: usize) -> usize
    ensures { (result ≡ pick (stands v (a ∷ b ∷ c ∷ [])) 1 0) × (result ≤ 1) }
{
    if a == v {
        return 1;
    }
    if b == v {
        return 1;
    }
    if c == v {
        return 1;
    }
    0
}

// 1 where an edge is an element of straps and v one of its ends, else 0.
fn strap_holds(v: usize, structural: usize, a: usize, b: usize) -> usize
    ensures { (result ≡ pick (eqb structural 1 && stands v (a ∷ b ∷ [])) 1 0) × (result ≤ 1) }
{
    if structural != 1 {
        return 0;
    }
    if a == v {
        return 1;
    }
    if b == v {
        return 1;
    }
    0
}

// How many of the first t triangles hold v.
fn triangles_with(v: usize, t: usize, corners: &[usize]) -> usize
    requires { t ≤ length corners.now / corner_columns }
    ensures { TrianglesWith v t corners.now result }
{
    let c = corners.len() / mesh::CORNER_COLUMNS;
    let mut n: usize = 0;
    for i in 0..t {
        let held = triangle_holds(v, corners[i], corners[c + i], corners[2 * c + i]);
        n += held;
    }
    n
}

// How many straps among the first e edges hold v.
fn straps_with(v: usize, e: usize, ends: &[usize]) -> usize
    requires { e ≤ length ends.now / end_columns }
    ensures { StrapsWith v e ends.now result }
{
    let c = ends.len() / mesh::END_COLUMNS;
    let mut n: usize = 0;
    for i in 0..e {
        let held = strap_holds(v, ends[2 * c + i], ends[i], ends[c + i]);
        n += held;
    }
    n
}

// How many elements of the first k rows hold v.
pub fn fan_count(v: usize, k: Counts, corners: &[usize], ends: &[usize]) -> usize
    requires { (k.triangles ≤ length corners.now / corner_columns) × (k.edges ≤ length ends.now / end_columns) }
    ensures { FanCounted v k corners.now ends.now result }
{
    let t = k.triangles;
    let e = k.edges;
    let kind = elements::kind_of(t, e, ends);
    match kind {
        Kind::Triangles => triangles_with(v, t, corners),
        Kind::Straps => straps_with(v, e, ends),
        Kind::Nothing => 0,
    }
}

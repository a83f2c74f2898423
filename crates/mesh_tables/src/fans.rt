// The fan of a particle, read from the columns of a mesh: the corners of its elements.
ghost use Rattle.std.specs.Prelude.{◌≡◌, ◌&&◌, List, [], ◌∷◌, ◌/◌, ◌≤◌, eqb, Float, length};
ghost use Rattle.lists.specs.Lists.{stands};
ghost use Rattle.elements.specs.Table.{kind_is};
ghost use Rattle.mesh_tables.specs.Fans.{RowPut, CornersRead, triangles_with, straps_with, FanCorners};
ghost use Rattle.mesh.specs.Widths.{corner_columns, end_columns};

use elements::Kind;

// Is v one of three corners?
pub fn triangle_holds(v: usize, a: usize, b: usize, c: usize) -> bool
    ensures { result ≡ stands v (a ∷ b ∷ c ∷ []) }
{
    if a == v {
        return true;
    }
    if b == v {
        return true;
    }
    c == v
}

// Is an edge from a to b a strap that holds v?
pub fn strap_holds(v: usize, structural: usize, a: usize, b: usize) -> bool
    ensures { result ≡ (eqb structural 1 && stands v (a ∷ b ∷ [])) }
{
    if structural != 1 {
        return false;
    }
    if a == v {
        return true;
    }
    b == v
}

// Puts three corners as row r of a table, if it has so many rows.
fn put_three(r: usize, a: usize, b: usize, c: usize, verts: &mut [usize])
    ensures { RowPut 3 r (a ∷ b ∷ c ∷ []) verts.old verts.new }
{
    if r < verts.len() / 3 {
        let o = 3 * r;
        verts[o] = a;
        verts[o + 1] = b;
        verts[o + 2] = c;
    }
}

// Puts two ends as row r of a table, if it has so many rows.
fn put_two(r: usize, a: usize, b: usize, verts: &mut [usize])
    ensures { RowPut 2 r (a ∷ b ∷ []) verts.old verts.new }
{
    if r < verts.len() / 2 {
        let o = 2 * r;
        verts[o] = a;
        verts[o + 1] = b;
    }
}

// The corners of the triangles that hold v, as far as a table goes, and how many triangles they are.
fn triangle_corners(v: usize, t: usize, corners: &[usize], verts: &mut [usize]) -> usize
    requires { t ≤ length corners.now / corner_columns }
    ensures { (volumes : List Float) → CornersRead 3 (triangles_with v t corners.now volumes) result verts.new }
{
    let c = corners.len() / mesh::CORNER_COLUMNS;
    let mut r: usize = 0;
    for i in 0..t {
        let x = corners[i];
        let y = corners[c + i];
        let z = corners[2 * c + i];
        if triangle_holds(v, x, y, z) {
            put_three(r, x, y, z, verts);
            r += 1;
        }
    }
    r
}

// The ends of the straps that hold v, as far as a table goes, and how many straps they are.
fn strap_corners(v: usize, e: usize, ends: &[usize], verts: &mut [usize]) -> usize
    requires { e ≤ length ends.now / end_columns }
    ensures { (lengths : List Float) → CornersRead 2 (straps_with v e ends.now lengths) result verts.new }
{
    let c = ends.len() / mesh::END_COLUMNS;
    let mut r: usize = 0;
    for i in 0..e {
        let x = ends[i];
        let y = ends[c + i];
        if strap_holds(v, ends[2 * c + i], x, y) {
            put_two(r, x, y, verts);
            r += 1;
        }
    }
    r
}

// The corners of the elements that hold v, as far as a table goes, and how many elements they are.
pub fn fan_corners(
    kind: Kind,
    v: usize,
    t: usize,
    e: usize,
    corners: &[usize],
    ends: &[usize],
    verts: &mut [usize],
) -> usize
    requires { (t ≤ length corners.now / corner_columns) × (e ≤ length ends.now / end_columns) }
    ensures { FanCorners (kind_is kind) v t e corners.now ends.now result verts.new }
{
    match kind {
        Kind::Triangles => triangle_corners(v, t, corners, verts),
        Kind::Straps => strap_corners(v, e, ends, verts),
        Kind::Nothing => 0,
    }
}

// The corners of all elements of an accepted mesh in one table, where neither their numbers nor their measures are asked for.
ghost use Rattle.std.specs.Prelude.{◌*◌, ◌/◌, ◌≤◌, length};
ghost use Rattle.elements.specs.Table.{kind_is};
ghost use Rattle.mesh.specs.Blocks.{given_in, given_before};
ghost use Rattle.mesh_tables.specs.Accepted.{Accepted};
ghost use Rattle.mesh_tables.specs.Cornering.{CornerRoom, TriangleCorners, StrapCorners, KindCorners, MeshCornered};
ghost use Rattle.mesh.specs.Widths.{corner_columns, end_columns};

use elements::Kind;

// How many elements there are, and how many corners each has.
#[derive(Clone, Copy)]
pub struct Rows {
    pub n: usize,
    pub k: usize,
}

// The corners of the first t triangles.
fn triangle_corners(t: usize, corners: &[usize], verts: &mut [usize])
    requires { (t ≤ length corners.now / corner_columns) × (t * 3 ≤ length verts.old) }
    ensures { TriangleCorners t corners.now verts.new }
{
    let c = corners.len() / mesh::CORNER_COLUMNS;
    let mut o: usize = 0;
    for i in 0..t {
        verts[o] = corners[i];
        verts[o + 1] = corners[c + i];
        verts[o + 2] = corners[2 * c + i];
        o += 3;
    }
}

// The corners of the structural edges among the first e, and how many these are.
fn strap_corners(e: usize, ends: &[usize], verts: &mut [usize]) -> usize
    requires { (e ≤ length ends.now / end_columns) × (e * 2 ≤ length verts.old) }
    ensures { StrapCorners e ends.now result verts.new }
{
    let c = ends.len() / mesh::END_COLUMNS;
    let mut n: usize = 0;
    let mut o: usize = 0;
    for i in 0..e {
        if ends[2 * c + i] == 1 {
            verts[o] = ends[i];
            verts[o + 1] = ends[c + i];
            o += 2;
            n += 1;
        }
    }
    n
}

// The corners of all elements of a kind, and how many elements they are.
fn kind_corners(
    kind: Kind,
    t: usize,
    e: usize,
    corners: &[usize],
    ends: &[usize],
    verts: &mut [usize],
) -> usize
    requires { CornerRoom t e (length corners.now) (length ends.now) (length verts.old) }
    ensures { KindCorners (kind_is kind) t e corners.now ends.now result verts.new }
{
    match kind {
        Kind::Triangles => {
            triangle_corners(t, corners, verts);
            t
        }
        Kind::Straps => strap_corners(e, ends, verts),
        Kind::Nothing => 0,
    }
}

// The corners of all elements of an accepted mesh.
pub fn corners_of(
    points: &[f32],
    roots: &[usize],
    corners: &[usize],
    volumes: &[f32],
    ends: &[usize],
    lengths: &[f32],
    outline: &[usize],
    verts: &mut [usize],
) -> Rows
    requires { Accepted (given_in points roots corners volumes ends lengths outline) × (4096 ≤ length verts.old) }
    ensures { MeshCornered (given_before points roots corners volumes ends lengths outline) result.n result.k verts.new }
{
    let t = corners.len() / mesh::CORNER_COLUMNS;
    let e = ends.len() / mesh::END_COLUMNS;
    let kind = elements::kind_of(t, e, ends);
    let n = kind_corners(kind, t, e, corners, ends, verts);
    let k = elements::corners_per(kind);
    Rows { n, k }
}

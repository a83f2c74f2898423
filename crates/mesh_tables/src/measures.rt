// The measure of an accepted mesh: those of its elements, added in their order, without a table of them.
ghost use Rattle.std.specs.Prelude.{◌≡◌, map, ◌/◌, ◌≤◌, length};
ghost use Rattle.model.specs.Elements.{Element, triangles_from, straps_from, sum, rest_measure};
ghost use Rattle.mesh.specs.At.{triangles_at, edges_at};
ghost use Rattle.mesh.specs.Given.{mesh_of};
ghost use Rattle.mesh.specs.Blocks.{given_in, given_before};
ghost use Rattle.elements.specs.Table.{kind_is, elements_in};
ghost use Rattle.mesh_tables.specs.Accepted.{Accepted};
ghost use Rattle.mesh.specs.Widths.{end_columns, length_columns};

use elements::Kind;

// The sum of the first t triangles.
fn triangle_sum(t: usize, corners: &[usize], volumes: &[f32]) -> f32
    requires { t ≤ length volumes.now }
    ensures { result ≡ sum (map (λ (x : Element). x.measure) (triangles_from 0 (triangles_at t corners.now
        volumes.now))) }
{
    let mut s: f32 = 0.0;
    for i in 0..t {
        s = s + float::abs::abs(volumes[i]);
    }
    s
}

// The sum of the structural edges among the first e.
fn strap_sum(e: usize, ends: &[usize], lengths: &[f32]) -> f32
    requires { (e ≤ length ends.now / end_columns) × (e ≤ length lengths.now / length_columns) }
    ensures { result ≡ sum (map (λ (x : Element). x.measure) (straps_from 0 (edges_at e ends.now lengths.now))) }
{
    let c = ends.len() / mesh::END_COLUMNS;
    let m = lengths.len() / mesh::LENGTH_COLUMNS;
    let mut s: f32 = 0.0;
    for i in 0..e {
        if ends[2 * c + i] == 1 {
            s = s + lengths[m + i];
        }
    }
    s
}

// The sum of all elements of a kind.
fn kind_sum(
    kind: Kind,
    t: usize,
    e: usize,
    corners: &[usize],
    volumes: &[f32],
    ends: &[usize],
    lengths: &[f32],
) -> f32
    requires { (t ≤ length volumes.now) × (e ≤ length ends.now / end_columns) × (e ≤ length lengths.now / length_columns) }
    ensures { result ≡ sum (map (λ (x : Element). x.measure) (elements_in (kind_is kind) (triangles_at t corners.now
        volumes.now) (edges_at e ends.now lengths.now))) }
{
    match kind {
        Kind::Triangles => triangle_sum(t, corners, volumes),
        Kind::Straps => strap_sum(e, ends, lengths),
        Kind::Nothing => 0.0,
    }
}

// The measure of an accepted mesh.
pub fn whole_measure(
    points: &[f32],
    roots: &[usize],
    corners: &[usize],
    volumes: &[f32],
    ends: &[usize],
    lengths: &[f32],
    outline: &[usize],
) -> f32
    requires { Accepted (given_in points roots corners volumes ends lengths outline) }
    ensures { result ≡ rest_measure (mesh_of (given_before points roots corners volumes ends lengths outline)) }
{
    let t = corners.len() / mesh::CORNER_COLUMNS;
    let e = ends.len() / mesh::END_COLUMNS;
    let kind = elements::kind_of(t, e, ends);
    kind_sum(kind, t, e, corners, volumes, ends, lengths)
}

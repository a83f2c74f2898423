// The checks of an input: its columns tested one by one, and the refusals 1 to 3 in their order.
ghost use Rattle.std.specs.Prelude.{◌≡◌, ◌*◌, ◌/◌, ◌≤◌, true, [], length};
ghost use Rattle.lists.specs.Lists.{all, up_to};
ghost use Rattle.model.specs.Valid.{particle_ok, edge_ok, numbers_fit_of, indices_fit_of};
ghost use Rattle.mesh.specs.Filled.{Fits};
ghost use Rattle.mesh.specs.Refused.{refusal_in};
ghost use Rattle.mesh.specs.At.{particles_at, edges_at};
ghost use Rattle.judge.specs.Checks.{fault_in, fault_of};
ghost use Rattle.mesh.specs.Workers.{ParticleRoom, EdgeRoom};
ghost use Rattle.judge.specs.Told.{RootsTold, CornersTold, VolumesTold, pair_ok};
ghost use Rattle.mesh.specs.Blocks.{mesh_before, given_before, inputs_in};
ghost use Rattle.mesh.specs.Widths.{corner_columns, root_columns, volume_columns};

use crate::{faults, ranges, tests};
use mesh::Counts;
use mesh::refusals::Refusal;

// The numbers of the first n particles.
fn particles_fit(n: usize, points: &[f32], roots: &[usize]) -> bool
    requires { ParticleRoom n (length points.now) (length roots.now) }
    ensures { result ≡ all particle_ok (particles_at n points.now roots.now) }
{
    let p = points.len() / mesh::POINT_COLUMNS;
    let q = roots.len() / mesh::ROOT_COLUMNS;
    let z = ranges::in_range(points, 0, n);
    let z = tests::both(z, ranges::in_range(points, p, n));
    let z = tests::both(z, ranges::in_range(points, 2 * p, n));
    let z = tests::both(z, ranges::in_range(points, 3 * p, n));
    let z = tests::both(z, ranges::in_range(points, 4 * p, n));
    let z = tests::both(z, ranges::finite(points, 5 * p, n));
    let z = tests::both(z, ranges::in_range(points, 6 * p, n));
    let z = tests::both(z, ranges::in_range(points, 7 * p, n));
    tests::both(z, ranges::flags(roots, q, n))
}

// The numbers of the first n triangles, whatever their corners.
fn triangles_fit(n: usize, volumes: &[f32]) -> bool
    requires { n ≤ length volumes.now / volume_columns }
    ensures { VolumesTold n volumes.now result }
{
    let w = volumes.len() / mesh::VOLUME_COLUMNS;
    let z = ranges::volumes(volumes, 0, n);
    tests::both(z, ranges::in_range(volumes, w, n))
}

// The numbers of the first n edges.
fn edges_fit(n: usize, ends: &[usize], lengths: &[f32]) -> bool
    requires { EdgeRoom n (length ends.now) (length lengths.now) }
    ensures { result ≡ all edge_ok (edges_at n ends.now lengths.now) }
{
    let e = ends.len() / mesh::END_COLUMNS;
    let l = lengths.len() / mesh::LENGTH_COLUMNS;
    let z = ranges::flags(ends, 2 * e, n);
    let z = tests::both(z, ranges::flags(ends, 3 * e, n));
    let z = tests::both(z, ranges::lengths(lengths, 0, n));
    let z = tests::both(z, ranges::lengths(lengths, l, n));
    let z = tests::both(z, ranges::in_range(lengths, 2 * l, n));
    tests::both(z, ranges::in_range(lengths, 3 * l, n))
}

// The roots of n particles.
fn roots_fit(n: usize, roots: &[usize]) -> bool
    requires { n ≤ length roots.now / root_columns }
    ensures { RootsTold n roots.now result }
{
    ranges::below(roots, n, n)
}

// The corners of the first t triangles, among n particles.
fn corners_fit(n: usize, t: usize, corners: &[usize]) -> bool
    requires { (t ≤ length corners.now / corner_columns) × (n ≤ 9223372036854775808) }
    ensures { CornersTold n t corners.now result }
{
    let c = corners.len() / mesh::CORNER_COLUMNS;
    let room = faults::LIMIT - n;
    let mut fault: usize = 0;
    for i in 0..t {
        fault = fault | faults::three(n, room, corners[i], corners[c + i], corners[2 * c + i]);
    }
    fault < faults::LIMIT
}

// The two ends in each of the first t rows of a block with columns of stride places, among n particles.
fn pairs_fit(n: usize, t: usize, stride: usize, s: &[usize]) -> bool
    requires { (t ≤ stride) × (2 * stride ≤ length s.now) × (n ≤ 9223372036854775808) }
    ensures { result ≡ all (pair_ok n stride s.now) (up_to t) }
{
    let room = faults::LIMIT - n;
    let mut fault: usize = 0;
    for i in 0..t {
        fault = fault | faults::two(n, room, s[i], s[stride + i]);
    }
    fault < faults::LIMIT
}

// The numbers and flags of the first k rows of seven blocks.
pub fn numbers_fit(
    k: Counts,
    points: &[f32],
    roots: &[usize],
    corners: &[usize],
    volumes: &[f32],
    ends: &[usize],
    lengths: &[f32],
    outline: &[usize],
) -> bool
    requires { Fits k (inputs_in points roots corners volumes ends lengths outline) }
    ensures { result ≡ numbers_fit_of (mesh_before k points roots corners volumes ends lengths outline) }
{
    let z = particles_fit(k.particles, points, roots);
    let z = tests::both(z, triangles_fit(k.triangles, volumes));
    tests::both(z, edges_fit(k.edges, ends, lengths))
}

// The indices and roots of the first k rows of seven blocks.
pub fn indices_fit(
    k: Counts,
    points: &[f32],
    roots: &[usize],
    corners: &[usize],
    volumes: &[f32],
    ends: &[usize],
    lengths: &[f32],
    outline: &[usize],
) -> bool
    requires { Fits k (inputs_in points roots corners volumes ends lengths outline) }
    ensures { result ≡ indices_fit_of (mesh_before k points roots corners volumes ends lengths outline) }
{
    let n = k.particles;
    let z = roots_fit(n, roots);
    let z = tests::both(z, corners_fit(n, k.triangles, corners));
    let z = tests::both(
        z,
        pairs_fit(n, k.edges, ends.len() / mesh::END_COLUMNS, ends),
    );
    tests::both(
        z,
        pairs_fit(n, k.boundary, outline.len() / mesh::SIDE_COLUMNS, outline),
    )
}

// The refusals 2 and 3 of the first k rows of seven blocks. The columns may be longer than the mesh.
pub fn judge_sized(
    k: Counts,
    points: &[f32],
    roots: &[usize],
    corners: &[usize],
    volumes: &[f32],
    ends: &[usize],
    lengths: &[f32],
    outline: &[usize],
) -> Result<(), Refusal>
    requires { Fits k (inputs_in points roots corners volumes ends lengths outline) }
    ensures { refusal_in result ≡ fault_in (mesh_before k points roots corners volumes ends lengths outline) }
{
    let ok = numbers_fit(k, points, roots, corners, volumes, ends, lengths, outline);
    tests::ensure(ok, Refusal::Number)?;
    let ok = indices_fit(k, points, roots, corners, volumes, ends, lengths, outline);
    tests::ensure(ok, Refusal::Name)
}

// The refusals 1 to 3 of any seven blocks.
pub fn judge(
    points: &[f32],
    roots: &[usize],
    corners: &[usize],
    volumes: &[f32],
    ends: &[usize],
    lengths: &[f32],
    outline: &[usize],
) -> Result<(), Refusal>
    ensures { refusal_in result ≡ fault_of (given_before points roots corners volumes ends lengths outline) }
{
    let fit = tests::sizes_fit(
        points.len(),
        roots.len(),
        corners.len(),
        volumes.len(),
        ends.len(),
        lengths.len(),
        outline.len(),
    );
    if !fit {
        return Err(Refusal::Size);
    }
    let k = Counts {
        particles: points.len() / mesh::POINT_COLUMNS,
        triangles: corners.len() / mesh::CORNER_COLUMNS,
        edges: ends.len() / mesh::END_COLUMNS,
        boundary: outline.len() / mesh::SIDE_COLUMNS,
        log: 0,
    };
    judge_sized(k, points, roots, corners, volumes, ends, lengths, outline)
}

// What refuses a call before its steps: 1 to 4, those of the mesh, then those of what stands beside it, and then what its edition refuses.
ghost use Rattle.std.specs.Prelude.{◌≡◌, ◌/◌, ◌≤◌, true, [], length};
ghost use Rattle.model.specs.Calls.{sides_ok, refusal};
ghost use Rattle.mesh.specs.Refused.{refusal_in};
ghost use Rattle.mesh.specs.Given.{mesh_of, sizes_fit_of, as_rooms};
ghost use Rattle.mesh_calls.specs.Jobs.{job_numbers, job_arguments, job_edition, job_refusal, whole_places_of};
ghost use Rattle.mesh.specs.Widths.{point_columns};
ghost use Rattle.mesh.specs.Filled.{Fits, lent};
ghost use Rattle.mesh.specs.Blocks.{mesh_before, given_before, inputs_in};

use crate::{Job, fans};
use elements::Kind;
use mesh::refusals::Refusal;
use mesh::{Counts, Rooms};
use split_plan::place;

// Are the numbers beside the mesh right?
fn numbers_fit(job: Job) -> bool
    ensures { result ≡ job_numbers job }
{
    match job {
        Job::Straddlers => true,
        Job::Split(_) => true,
        Job::Cut(_, b0, b1, _) => {
            judge::tests::both(
                arguments::tests::point_fits(b0),
                arguments::tests::point_fits(b1),
            )
        }
        Job::Crack(_) => true,
    }
}

// Is v one of the particles, and is there a side for each element of its fan?
fn sides_given(
    v: usize,
    sides: &[usize],
    k: Counts,
    in_points: &[f32],
    in_roots: &[usize],
    in_corners: &[usize],
    in_volumes: &[f32],
    in_ends: &[usize],
    in_lengths: &[f32],
    in_outline: &[usize],
) -> bool
    requires { Fits k (inputs_in in_points in_roots in_corners in_volumes in_ends in_lengths in_outline) }
    ensures { result ≡ sides_ok (mesh_before k in_points in_roots in_corners in_volumes in_ends in_lengths in_outline) v
        sides.now }
{
    let fan = fans::fan_count(v, k, in_corners, in_ends);
    arguments::tests::sides_fit(v, k.particles, sides, fan)
}

// Are the arguments beside a mesh right, and have its triangles room?
fn arguments_fit(
    job: Job,
    list: &[usize],
    room: Rooms,
    k: Counts,
    in_points: &[f32],
    in_roots: &[usize],
    in_corners: &[usize],
    in_volumes: &[f32],
    in_ends: &[usize],
    in_lengths: &[f32],
    in_outline: &[usize],
) -> bool
    requires { Fits k (inputs_in in_points in_roots in_corners in_volumes in_ends in_lengths in_outline) }
    ensures { result ≡ job_arguments job list.now (as_rooms room) (mesh_before k in_points in_roots in_corners in_volumes
        in_ends in_lengths in_outline) }
{
    let lent = k.triangles <= room.triangles;
    match job {
        Job::Straddlers => lent,
        Job::Split(v) => {
            let fit = sides_given(
                v, list, k, in_points, in_roots, in_corners, in_volumes, in_ends, in_lengths,
                in_outline,
            );
            judge::tests::both(fit, lent)
        }
        Job::Cut(edition, _, _, f) => {
            let known = edition == 1 || edition == 2;
            judge::tests::both(
                judge::tests::both(known, arguments::tests::fraction_fits(f)),
                lent,
            )
        }
        Job::Crack(_) => lent,
    }
}

// The refusals 2 to 4 of a call.
fn judge_arguments(
    job: Job,
    list: &[usize],
    room: Rooms,
    k: Counts,
    in_points: &[f32],
    in_roots: &[usize],
    in_corners: &[usize],
    in_volumes: &[f32],
    in_ends: &[usize],
    in_lengths: &[f32],
    in_outline: &[usize],
) -> Result<(), Refusal>
    requires { Fits k (inputs_in in_points in_roots in_corners in_volumes in_ends in_lengths in_outline) }
    ensures { let M = mesh_before k in_points in_roots in_corners in_volumes in_ends in_lengths in_outline in
        refusal_in result ≡ refusal true M (job_numbers job) (job_arguments job list.now (as_rooms room) M) }
{
    let fault = judge::checks::judge_sized(
        k, in_points, in_roots, in_corners, in_volumes, in_ends, in_lengths, in_outline,
    );
    arguments::tests::with_numbers(fault, numbers_fit(job))?;
    let ok = arguments_fit(
        job, list, room, k, in_points, in_roots, in_corners, in_volumes, in_ends, in_lengths,
        in_outline,
    );
    judge::tests::ensure(ok, Refusal::Argument)
}

// Is each of the first n positions a whole point?
fn whole_places(n: usize, points: &[f32]) -> bool
    requires { n ≤ length points.now / point_columns }
    ensures { result ≡ whole_places_of n points.now }
{
    for i in 0..n {
        if !exact::whole_point(place(i, points)) {
            return false;
        }
    }
    true
}

// What refuses a call on an accepted mesh behind its arguments. In edition 2 a cut gets 11 off the whole numbers, and then 12 on straps.
fn edition_refusal(
    job: Job,
    k: Counts,
    in_points: &[f32],
    in_roots: &[usize],
    in_corners: &[usize],
    in_volumes: &[f32],
    in_ends: &[usize],
    in_lengths: &[f32],
    in_outline: &[usize],
) -> Result<(), Refusal>
    requires { Fits k (inputs_in in_points in_roots in_corners in_volumes in_ends in_lengths in_outline) }
    ensures { refusal_in result ≡ job_edition job (mesh_before k in_points in_roots in_corners in_volumes in_ends in_lengths in_outline) }
{
    let Job::Cut(edition, b0, b1, _) = job else {
        return Ok(());
    };
    if edition != 2 {
        return Ok(());
    }
    if !whole_places(k.particles, in_points) || !exact::whole_point(b0) || !exact::whole_point(b1) {
        return Err(Refusal::Whole);
    }
    let kind = elements::kind_of(k.triangles, k.edges, in_ends);
    match kind {
        Kind::Triangles => Ok(()),
        Kind::Straps => Err(Refusal::Straps),
        Kind::Nothing => Ok(()),
    }
}

// What refuses a call on the first k rows of seven blocks before its steps: 2 to 4, then what its edition refuses. The columns may be longer than the mesh.
pub fn judge_sized(
    job: Job,
    list: &[usize],
    room: Rooms,
    k: Counts,
    in_points: &[f32],
    in_roots: &[usize],
    in_corners: &[usize],
    in_volumes: &[f32],
    in_ends: &[usize],
    in_lengths: &[f32],
    in_outline: &[usize],
) -> Result<(), Refusal>
    requires { Fits k (inputs_in in_points in_roots in_corners in_volumes in_ends in_lengths in_outline) }
    ensures { refusal_in result ≡ job_refusal job list.now true (mesh_before k in_points in_roots in_corners in_volumes in_ends
        in_lengths in_outline) (as_rooms room) }
{
    judge_arguments(
        job, list, room, k, in_points, in_roots, in_corners, in_volumes, in_ends, in_lengths,
        in_outline,
    )?;
    edition_refusal(
        job, k, in_points, in_roots, in_corners, in_volumes, in_ends, in_lengths, in_outline,
    )
}

// What refuses a call before its steps: 1 for the sizes, then the rest.
pub fn judge(
    job: Job,
    list: &[usize],
    room: Rooms,
    in_points: &[f32],
    in_roots: &[usize],
    in_corners: &[usize],
    in_volumes: &[f32],
    in_ends: &[usize],
    in_lengths: &[f32],
    in_outline: &[usize],
) -> Result<(), Refusal>
    ensures { let G = given_before in_points in_roots in_corners in_volumes in_ends in_lengths in_outline in
        refusal_in result ≡ job_refusal job list.now (sizes_fit_of G) (mesh_of G) (as_rooms room) }
{
    let fit = judge::tests::sizes_fit(
        in_points.len(),
        in_roots.len(),
        in_corners.len(),
        in_volumes.len(),
        in_ends.len(),
        in_lengths.len(),
        in_outline.len(),
    );
    if !fit {
        return Err(Refusal::Size);
    }
    let k = Counts {
        particles: in_points.len() / mesh::POINT_COLUMNS,
        triangles: in_corners.len() / mesh::CORNER_COLUMNS,
        edges: in_ends.len() / mesh::END_COLUMNS,
        boundary: in_outline.len() / mesh::SIDE_COLUMNS,
        log: 0,
    };
    judge_sized(
        job, list, room, k, in_points, in_roots, in_corners, in_volumes, in_ends, in_lengths,
        in_outline,
    )
}

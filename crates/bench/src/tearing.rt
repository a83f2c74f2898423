// The entries that give a mesh: they copy the input to the lent blocks, work there, and leave 0 behind.
ghost use Rattle.std.specs.Prelude.{◌≡◌};
ghost use Rattle.model.specs.Calls.{split_call, straddlers_call, cut_call, crack_call};
ghost use Rattle.mesh_calls.specs.Jobs.{job_call};
ghost use Rattle.mesh.specs.Given.{mesh_of, sizes_fit_of, rooms_of, as_rooms};
ghost use Rattle.mesh.specs.Filled.{lent};
ghost use Rattle.call_frame.specs.Answered.{Answered, front_of};
ghost use Rattle.mesh.specs.Blocks.{lent_before, given_before};

use blade::Point;
use call_frame::Answer;
use mesh::refusals::Refusal;
use mesh_calls::Job;

// A job answered: done in the lent blocks, unless it is refused, and 0 left behind what it gives.
fn answer_job(
    job: Job,
    list: &[usize],
    in_points: &[f32],
    in_roots: &[usize],
    in_corners: &[usize],
    in_volumes: &[f32],
    in_ends: &[usize],
    in_lengths: &[f32],
    in_outline: &[usize],
    points: &mut [f32],
    roots: &mut [usize],
    corners: &mut [usize],
    volumes: &mut [f32],
    ends: &mut [usize],
    lengths: &mut [f32],
    outline: &mut [usize],
    log: &mut [u32],
) -> Result<Answer, Refusal>
    ensures { let G = given_before in_points in_roots in_corners in_volumes in_ends in_lengths in_outline in
        let L = lent_before points roots corners volumes ends lengths outline log in
        Answered (job_call job list.now (sizes_fit_of G) (mesh_of G) (as_rooms (rooms_of L))) L result points.new
        roots.new corners.new volumes.new ends.new lengths.new outline.new
        log.new }
{
    let room = mesh::whole::rooms_for(
        points.len(),
        roots.len(),
        corners.len(),
        volumes.len(),
        ends.len(),
        lengths.len(),
        outline.len(),
        log.len(),
    );
    let ran = perform::calls::run(
        job, list, room, in_points, in_roots, in_corners, in_volumes, in_ends, in_lengths,
        in_outline, points, roots, corners, volumes, ends, lengths, outline, log,
    );
    call_frame::frame::finish(
        ran, points, roots, corners, volumes, ends, lengths, outline, log,
    )
}

// The straddlers across pieces removed: the edges that are no elements, and the boundary entries, that join two pieces.
pub fn straddlers(
    in_points: &[f32],
    in_roots: &[usize],
    in_corners: &[usize],
    in_volumes: &[f32],
    in_ends: &[usize],
    in_lengths: &[f32],
    in_outline: &[usize],
    points: &mut [f32],
    roots: &mut [usize],
    corners: &mut [usize],
    volumes: &mut [f32],
    ends: &mut [usize],
    lengths: &mut [f32],
    outline: &mut [usize],
    log: &mut [u32],
) -> Result<Answer, Refusal>
    ensures { let G = given_before in_points in_roots in_corners in_volumes in_ends in_lengths in_outline in
        let L = lent_before points roots corners volumes ends lengths outline log in
        Answered (straddlers_call (sizes_fit_of G) (mesh_of G) (as_rooms (rooms_of L))) L result points.new roots.new
        corners.new volumes.new ends.new lengths.new outline.new log.new }
{
    let none = [0usize; 0];
    answer_job(
        Job::Straddlers,
        &none,
        in_points,
        in_roots,
        in_corners,
        in_volumes,
        in_ends,
        in_lengths,
        in_outline,
        points,
        roots,
        corners,
        volumes,
        ends,
        lengths,
        outline,
        log,
    )
}

// Particle v split by the sides of its fan: 4 for an absent particle or bad sides.
pub fn split(
    v: usize,
    sides: &[usize],
    in_points: &[f32],
    in_roots: &[usize],
    in_corners: &[usize],
    in_volumes: &[f32],
    in_ends: &[usize],
    in_lengths: &[f32],
    in_outline: &[usize],
    points: &mut [f32],
    roots: &mut [usize],
    corners: &mut [usize],
    volumes: &mut [f32],
    ends: &mut [usize],
    lengths: &mut [f32],
    outline: &mut [usize],
    log: &mut [u32],
) -> Result<Answer, Refusal>
    ensures { let G = given_before in_points in_roots in_corners in_volumes in_ends in_lengths in_outline in
        let L = lent_before points roots corners volumes ends lengths outline log in
        Answered (split_call (sizes_fit_of G) (mesh_of G) v sides.now (as_rooms (rooms_of L))) L result points.new
        roots.new corners.new volumes.new ends.new lengths.new outline.new
        log.new }
{
    answer_job(
        Job::Split(v),
        sides,
        in_points,
        in_roots,
        in_corners,
        in_volumes,
        in_ends,
        in_lengths,
        in_outline,
        points,
        roots,
        corners,
        volumes,
        ends,
        lengths,
        outline,
        log,
    )
}

// The mesh cut in an edition, 1 or 2, along the blade from b0 to b1, straps with insertions at the fraction f or further from their ends.
// 2 for a bad blade, 4 for a bad fraction or an unknown edition; edition 2 gives 11 off the whole numbers, and then 12 on straps.
pub fn cut(
    edition: usize,
    b0: Point,
    b1: Point,
    f: f32,
    in_points: &[f32],
    in_roots: &[usize],
    in_corners: &[usize],
    in_volumes: &[f32],
    in_ends: &[usize],
    in_lengths: &[f32],
    in_outline: &[usize],
    points: &mut [f32],
    roots: &mut [usize],
    corners: &mut [usize],
    volumes: &mut [f32],
    ends: &mut [usize],
    lengths: &mut [f32],
    outline: &mut [usize],
    log: &mut [u32],
) -> Result<Answer, Refusal>
    ensures { let G = given_before in_points in_roots in_corners in_volumes in_ends in_lengths in_outline in
        let L = lent_before points roots corners volumes ends lengths outline log in
        Answered (cut_call (sizes_fit_of G) (mesh_of G) edition (record { from = b0; to = b1 }) f (as_rooms (rooms_of L))) L result points.new
        roots.new corners.new volumes.new ends.new lengths.new outline.new
        log.new }
{
    let none = [0usize; 0];
    answer_job(
        Job::Cut(edition, b0, b1, f),
        &none,
        in_points,
        in_roots,
        in_corners,
        in_volumes,
        in_ends,
        in_lengths,
        in_outline,
        points,
        roots,
        corners,
        volumes,
        ends,
        lengths,
        outline,
        log,
    )
}

// The minimum piece that is offered: three elements.
pub fn minimum_piece() -> usize
    ensures { result ≡ 3 }
{
    arguments::minimum_piece()
}

// The mesh cracked across torn edges, told by their numbers; each part at a crack must reach the minimum piece, of which 0 counts as 1.
pub fn crack(
    minimum: usize,
    torn: &[usize],
    in_points: &[f32],
    in_roots: &[usize],
    in_corners: &[usize],
    in_volumes: &[f32],
    in_ends: &[usize],
    in_lengths: &[f32],
    in_outline: &[usize],
    points: &mut [f32],
    roots: &mut [usize],
    corners: &mut [usize],
    volumes: &mut [f32],
    ends: &mut [usize],
    lengths: &mut [f32],
    outline: &mut [usize],
    log: &mut [u32],
) -> Result<Answer, Refusal>
    ensures { let G = given_before in_points in_roots in_corners in_volumes in_ends in_lengths in_outline in
        let L = lent_before points roots corners volumes ends lengths outline log in
        Answered (crack_call (sizes_fit_of G) (mesh_of G) torn.now minimum (as_rooms (rooms_of L))) L result points.new
        roots.new corners.new volumes.new ends.new lengths.new outline.new
        log.new }
{
    answer_job(
        Job::Crack(minimum),
        torn,
        in_points,
        in_roots,
        in_corners,
        in_volumes,
        in_ends,
        in_lengths,
        in_outline,
        points,
        roots,
        corners,
        volumes,
        ends,
        lengths,
        outline,
        log,
    )
}

// The filled front of a log, which a call that gives a mesh told n entries of: those entries, or as many as it has.
pub fn log_front(n: usize, log: &[u32]) -> &[u32]
    ensures { result.now ≡ front_of n log.now }
{
    call_frame::logged::log_front(n, log)
}

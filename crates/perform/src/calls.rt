// A call that gives a mesh: its input copied to the lent blocks, and worked on there.
ghost use Rattle.std.specs.Prelude.{[], ◌≤◌, length, ◌≡◌};
ghost use Rattle.model.specs.Elements.{kind_of};
ghost use Rattle.model.specs.Cut.{cut};
ghost use Rattle.elements.specs.Table.{kind_is};
ghost use Rattle.marks.specs.Marking.{blade_by};
ghost use Rattle.mesh.specs.Given.{mesh_of, sizes, sizes_fit_of, as_rooms};
ghost use Rattle.mesh.specs.Filled.{lent};
ghost use Rattle.mesh.specs.Refused.{refusal_in};
ghost use Rattle.work.specs.Working.{Roomed, Logged};
ghost use Rattle.call_frame.specs.Framed.{RoomsLent, Begun, Came};
ghost use Rattle.mesh_calls.specs.Jobs.{job_refusal, rule_in_of, job_run, job_call};
ghost use Rattle.perform.specs.Asks.{JobAsked, marks_tell_of, passed_by};
ghost use Rattle.mesh.specs.Blocks.{mesh_in, mesh_behind, lent_in, given_before, blocks_in};
ghost use Rattle.work.specs.Blocks.{ReadyIn, WorksIn};
ghost use Rattle.edge_drops.specs.Parted.{PartsIn};
ghost use Rattle.split.specs.Blocks.{ListIn};
ghost use Rattle.mesh.specs.At.{mesh_at};
ghost use Rattle.mesh.specs.Log.{world_at};

use blade::Point;
use elements::Kind;
use marks::Rule;
use mesh::refusals::Refusal;
use mesh::{Counts, Rooms};
use mesh_calls::{Job, checks};
use work::Ran;

// Copies the input of a call, unless a check or a room refuses it.
pub fn begin(
    job: Job,
    list: &[usize],
    room: Rooms,
    in_points: &[f32],
    in_roots: &[usize],
    in_corners: &[usize],
    in_volumes: &[f32],
    in_ends: &[usize],
    in_lengths: &[f32],
    in_outline: &[usize],
    points: &mut [f32],
    roots: &mut [usize],
    corners: &mut [usize],
    volumes: &mut [f32],
    ends: &mut [usize],
    lengths: &mut [f32],
    outline: &mut [usize],
) -> Result<(), Refusal>
    requires { RoomsLent room (blocks_in points roots corners volumes ends lengths outline) }
    ensures { let G = given_before in_points in_roots in_corners in_volumes in_ends in_lengths in_outline in
        Begun (job_refusal job list.now (sizes_fit_of G) (mesh_of G) (as_rooms room)) room (mesh_of G) (mesh_behind
        (sizes G) points roots corners volumes ends lengths outline) (refusal_in result) }
{
    let fault = checks::judge(
        job, list, room, in_points, in_roots, in_corners, in_volumes, in_ends, in_lengths,
        in_outline,
    );
    call_frame::frame::begin(
        fault, room, in_points, in_roots, in_corners, in_volumes, in_ends, in_lengths, in_outline,
        points, roots, corners, volumes, ends, lengths, outline,
    )
}

// The rule of an edition.
fn rule_in(edition: usize) -> Rule
    ensures { result ≡ rule_in_of edition }
{
    if edition == 2 {
        return Rule::Signs;
    }
    Rule::Rounded
}

// Do the marks by a rule tell of all that a cut would meet? Straps are cut by rounded numbers alone.
fn marks_tell(rule: Rule, kind: Kind) -> bool
    ensures { result ≡ marks_tell_of rule kind }
{
    match kind {
        Kind::Triangles => true,
        Kind::Straps => match rule {
            Rule::Rounded => true,
            Rule::Signs => false,
        },
        Kind::Nothing => true,
    }
}

// Does the blade pass by, where the log behind the marks has so many entries?
fn passed_by(rule: Rule, kind: Kind, logged: usize) -> bool
    ensures { result ≡ passed_by rule kind logged }
{
    if logged == 0 {
        return marks_tell(rule, kind);
    }
    false
}

// The cut along a blade: its crossings are noted, and then the mesh is cut, unless it passes by.
fn cut_marked(
    rule: Rule,
    b0: Point,
    b1: Point,
    f: f32,
    kind: Kind,
    k: Counts,
    room: Rooms,
    points: &mut [f32],
    roots: &mut [usize],
    corners: &mut [usize],
    volumes: &[f32],
    ends: &mut [usize],
    lengths: &mut [f32],
    outline: &mut [usize],
    log: &mut [u32],
    list: &mut [usize],
) -> Ran
    requires { ReadyIn room k points roots corners volumes ends lengths outline log × Logged k.log log.old × ListIn list }
    ensures { WorksIn (cut (kind_is kind) (blade_by rule b0 b1) f) room k points roots corners volumes ends lengths outline log result }
{
    let counts = crossmarks::note_crossings(
        rule, kind, b0, b1, k, room, points, roots, corners, volumes, ends, lengths, outline, log,
    )?;
    if passed_by(rule, kind, counts.log) {
        return Ok(counts);
    }
    strap_cut::kinds::run(
        rule, b0, b1, f, kind, counts, room, points, roots, corners, volumes, ends, lengths,
        outline, log, list,
    )
}

// Does to the mesh in the lent blocks what is to be done. The straddlers of a split stay in the blocks, and are listed; no other job lists any.
pub fn work(
    job: Job,
    list: &[usize],
    k: Counts,
    room: Rooms,
    points: &mut [f32],
    roots: &mut [usize],
    corners: &mut [usize],
    volumes: &[f32],
    ends: &mut [usize],
    lengths: &mut [f32],
    outline: &mut [usize],
    log: &mut [u32],
    gone: &mut [usize],
) -> Ran
    requires { ReadyIn room k points roots corners volumes ends lengths outline log × Logged k.log log.old
        × JobAsked job list.now (mesh_in k points roots corners volumes ends lengths outline) × (2049 ≤ length gone.old) }
    ensures { PartsIn (job_run job list.now (kind_of (mesh_at k points.old roots.old corners.old volumes.now ends.old lengths.old outline.old))) room
        k points roots corners volumes ends lengths outline log gone result }
{
    gone[edge_drops::LISTED] = 0;
    let kind = elements::kind_of(k.triangles, k.edges, ends);
    match job {
        Job::Straddlers => straddlers::across::remove_straddlers(
            kind, k, room, corners, volumes, ends, lengths, outline, log,
        ),
        Job::Split(v) => split::step::split_by_sides(
            kind, v, list, k, room, points, roots, corners, volumes, ends, lengths, outline, log,
            gone,
        ),
        Job::Cut(edition, b0, b1, f) => {
            // The cut works in the list, and leaves none listed.
            let ran = cut_marked(
                rule_in(edition),
                b0,
                b1,
                f,
                kind,
                k,
                room,
                points,
                roots,
                corners,
                volumes,
                ends,
                lengths,
                outline,
                log,
                gone,
            );
            gone[edge_drops::LISTED] = 0;
            ran
        }
        Job::Crack(minimum) => crack::body::crack_body(
            kind, minimum, list, k, room, points, roots, corners, volumes, ends, lengths, outline,
            log,
        ),
    }
}

// A call whole: the refusal, or what the work came to in a copy of the input, where the listed edges are gone.
pub fn run(
    job: Job,
    list: &[usize],
    room: Rooms,
    in_points: &[f32],
    in_roots: &[usize],
    in_corners: &[usize],
    in_volumes: &[f32],
    in_ends: &[usize],
    in_lengths: &[f32],
    in_outline: &[usize],
    points: &mut [f32],
    roots: &mut [usize],
    corners: &mut [usize],
    volumes: &mut [f32],
    ends: &mut [usize],
    lengths: &mut [f32],
    outline: &mut [usize],
    log: &mut [u32],
) -> Ran
    requires { Roomed room (lent_in points roots corners volumes ends lengths outline log) }
    ensures { let G = given_before in_points in_roots in_corners in_volumes in_ends in_lengths in_outline in
        Came (job_call job list.now (sizes_fit_of G) (mesh_of G) (as_rooms room)) room
        (λ k. world_at k points.new roots.new corners.new volumes.new ends.new lengths.new outline.new log.new) result }
{
    begin(
        job, list, room, in_points, in_roots, in_corners, in_volumes, in_ends, in_lengths,
        in_outline, points, roots, corners, volumes, ends, lengths, outline,
    )?;
    let k = Counts {
        particles: in_points.len() / mesh::POINT_COLUMNS,
        triangles: in_corners.len() / mesh::CORNER_COLUMNS,
        edges: in_ends.len() / mesh::END_COLUMNS,
        boundary: in_outline.len() / mesh::SIDE_COLUMNS,
        log: 0,
    };
    let mut gone = [0usize; edge_drops::LIST];
    let q = work(
        job, list, k, room, points, roots, corners, volumes, ends, lengths, outline, log, &mut gone,
    )?;
    edge_drops::close_rows(q.edges, &gone, ends, lengths);
    Ok(q)
}

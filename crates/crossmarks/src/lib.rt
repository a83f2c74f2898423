// The marks of a blade's crossings: each pair of an element's corners that the blade meets is noted in the log, with the hit point and the fraction.
#![tactic(auto)]

ghost use Rattle.std.specs.Prelude.{◌+◌, ◌/◌, ◌<◌, ◌≤◌, ◌≡◌, [], ◌∷◌, length};
ghost use Rattle.elements.specs.Table.{kind_is};
ghost use Rattle.model.specs.Cut.{marked_by};
ghost use Rattle.marks.specs.Marking.{blade_by};
ghost use Rattle.mesh.specs.Widths.{point_columns};
ghost use Rattle.crossmarks.specs.Noting.{Noted, pair_marks, row_marks, triangle_marks, strap_marks, beside_by, OffsetAt, OffsetsAre, PairRoom, TriangleRoom, StrapRoom};
ghost use Rattle.mesh.specs.Filled.{lent};
ghost use Rattle.work.specs.Working.{Works, Ready};
ghost use Rattle.mesh.specs.Log.{world_at};
ghost use Rattle.mesh.specs.At.{mesh_at};

use blade::{Hit, Point};
use elements::Kind;
use marks::Rule;
use marks::particles::tested;
use mesh::refusals::Refusal;
use mesh::{Counts, Rooms};
use split_plan::place;
use work::Ran;
use work::notes::bits_of;

// The offset of each of the first p particles from the blade's line.
fn read_offsets(b0: Point, b1: Point, p: usize, points: &[f32], offsets: &mut [f32])
    requires { (p ≤ length points.now / point_columns) × (p ≤ length offsets.old) }
    ensures { OffsetsAre b0 b1 points.now offsets.new p }
{
    for w in 0..p {
        offsets[w] = blade::offset(b0, b1, place(w, points));
    }
}

// Are two offsets strictly on one side of the blade's line, so that it does not meet what lies between? Their product is that of the blade test.
// In edition 2 each pair has its own test.
fn beside(rule: Rule, dx: f32, dy: f32) -> bool
    ensures { result ≡ beside_by rule dx dy }
{
    match rule {
        Rule::Rounded => dx * dy > 0.0,
        Rule::Signs => false,
    }
}

// Notes the pair (x, y) behind the n entries of the log, if the blade meets it; returns how many there are then. Without room it is only counted.
fn note_pair(
    rule: Rule,
    b0: Point,
    b1: Point,
    x: usize,
    y: usize,
    n: usize,
    points: &[f32],
    log: &mut [u32],
) -> usize
    requires { PairRoom x y n (length points.now) }
    ensures { Noted (pair_marks (blade_by rule b0 b1) points.now (x, y)) n log.old log.new result }
{
    let hit = tested(rule, b0, b1, place(x, points), place(y, points));
    let Hit::Hit(t, p) = hit else {
        return n;
    };
    if n < log.len() / mesh::ENTRY_WORDS {
        let at_x = bits_of(p.x);
        let at_y = bits_of(p.y);
        work::notes::note(n, 5, x as u32, y as u32, at_x, at_y, bits_of(t), log);
    }
    n + 1
}

// The same, where a pair beside the blade's line is passed over by its offsets.
fn note_across(
    rule: Rule,
    b0: Point,
    b1: Point,
    x: usize,
    y: usize,
    n: usize,
    points: &[f32],
    offsets: &[f32],
    log: &mut [u32],
) -> usize
    requires { PairRoom x y n (length points.now) × OffsetAt b0 b1 points.now offsets.now x
        × OffsetAt b0 b1 points.now offsets.now y }
    ensures { Noted (pair_marks (blade_by rule b0 b1) points.now (x, y)) n log.old log.new result }
{
    if beside(rule, offsets[x], offsets[y]) {
        return n;
    }
    note_pair(rule, b0, b1, x, y, n, points, log)
}

// The same of each pair of a triangle's corners.
fn note_sides(
    rule: Rule,
    b0: Point,
    b1: Point,
    x: usize,
    y: usize,
    z: usize,
    n: usize,
    points: &[f32],
    offsets: &[f32],
    log: &mut [u32],
) -> usize
    requires { let O = OffsetAt b0 b1 points.now offsets.now in PairRoom x y (n + 2) (length points.now)
        × PairRoom x z (n + 2) (length points.now) × O x × O y × O z }
    ensures { Noted (row_marks (blade_by rule b0 b1) points.now (x ∷ y ∷ z ∷ [])) n log.old
        log.new result }
{
    let first = note_across(rule, b0, b1, x, y, n, points, offsets, log);
    let second = note_across(rule, b0, b1, x, z, first, points, offsets, log);
    note_across(rule, b0, b1, y, z, second, points, offsets, log)
}

// Notes the crossings of the first t triangles behind the n entries of the log.
fn note_triangles(
    rule: Rule,
    b0: Point,
    b1: Point,
    t: usize,
    n: usize,
    points: &[f32],
    corners: &[usize],
    offsets: &[f32],
    log: &mut [u32],
) -> usize
    requires { TriangleRoom b0 b1 t n points.now corners.now offsets.now }
    ensures { Noted (triangle_marks (blade_by rule b0 b1) points.now t corners.now) n log.old
        log.new result }
{
    let size = corners.len() / mesh::CORNER_COLUMNS;
    let mut m = n;
    for i in 0..t {
        let second = size + i;
        let third = 2 * size + i;
        m = note_sides(
            rule,
            b0,
            b1,
            corners[i],
            corners[second],
            corners[third],
            m,
            points,
            offsets,
            log,
        );
    }
    m
}

// Notes the crossings of the straps among the first e edges behind the n entries of the log.
fn note_straps(
    rule: Rule,
    b0: Point,
    b1: Point,
    e: usize,
    n: usize,
    points: &[f32],
    ends: &[usize],
    offsets: &[f32],
    log: &mut [u32],
) -> usize
    requires { StrapRoom b0 b1 e n points.now ends.now offsets.now }
    ensures { Noted (strap_marks (blade_by rule b0 b1) points.now e ends.now) n log.old
        log.new result }
{
    let size = ends.len() / mesh::END_COLUMNS;
    let mut m = n;
    for i in 0..e {
        if ends[2 * size + i] == 1 {
            m = note_across(
                rule,
                b0,
                b1,
                ends[i],
                ends[size + i],
                m,
                points,
                offsets,
                log,
            );
        }
    }
    m
}

// Notes the crossings of the blade with the elements of a mesh, by the offsets of its particles.
fn note_elements(
    rule: Rule,
    kind: Kind,
    b0: Point,
    b1: Point,
    k: Counts,
    room: Rooms,
    points: &[f32],
    roots: &[usize],
    corners: &[usize],
    volumes: &[f32],
    ends: &[usize],
    lengths: &[f32],
    outline: &[usize],
    offsets: &[f32],
    log: &mut [u32],
) -> Ran
    requires { Ready room k (lent points.now roots.now corners.now volumes.now ends.now lengths.now outline.now log.old) (mesh_at k points.now roots.now corners.now volumes.now ends.now lengths.now outline.now)
        × OffsetsAre b0 b1 points.now offsets.now k.particles }
    ensures { Works (marked_by (kind_is kind) (blade_by rule b0 b1)) room (world_at k points.now roots.now corners.now volumes.now ends.now lengths.now outline.now log.old) (λ q. world_at q points.now roots.now corners.now volumes.now ends.now lengths.now outline.now log.new) result }
{
    let before = k.log;
    let n = match kind {
        Kind::Triangles => note_triangles(
            rule,
            b0,
            b1,
            k.triangles,
            before,
            points,
            corners,
            offsets,
            log,
        ),
        Kind::Straps => note_straps(rule, b0, b1, k.edges, before, points, ends, offsets, log),
        Kind::Nothing => before,
    };
    if room.log < n {
        return Err(Refusal::Entries);
    }
    Ok(Counts {
        particles: k.particles,
        triangles: k.triangles,
        edges: k.edges,
        boundary: k.boundary,
        log: n,
    })
}

// Notes the crossings of the blade with the elements of a mesh, as one step. The offsets of the particles are read once.
pub fn note_crossings(
    rule: Rule,
    kind: Kind,
    b0: Point,
    b1: Point,
    k: Counts,
    room: Rooms,
    points: &[f32],
    roots: &[usize],
    corners: &[usize],
    volumes: &[f32],
    ends: &[usize],
    lengths: &[f32],
    outline: &[usize],
    log: &mut [u32],
) -> Ran
    requires { Ready room k (lent points.now roots.now corners.now volumes.now ends.now lengths.now outline.now log.old) (mesh_at k points.now roots.now corners.now volumes.now ends.now lengths.now outline.now) }
    ensures { Works (marked_by (kind_is kind) (blade_by rule b0 b1)) room (world_at k points.now roots.now corners.now volumes.now ends.now lengths.now outline.now log.old) (λ q. world_at q points.now roots.now corners.now volumes.now ends.now lengths.now outline.now log.new) result }
{
    let mut offsets = [0.0f32; mesh::PARTICLES];
    read_offsets(b0, b1, k.particles, points, &mut offsets);
    note_elements(
        rule, kind, b0, b1, k, room, points, roots, corners, volumes, ends, lengths, outline,
        &offsets, log,
    )
}

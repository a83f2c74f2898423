// One torn edge cracked: the pair that stands for it now, the ways at both ends in their order, and the first that opens without confetti.
#![tactic(auto)]

ghost use Rattle.std.specs.Prelude.{◌≡◌, ◌<◌, ◌≤◌, true, length};
ghost use Rattle.elements.specs.Table.{kind_is};
ghost use Rattle.links.specs.Linked.{LinkedIn, MeshLinked};
ghost use Rattle.model.specs.Crack.{two_sided_of};
ghost use Rattle.work.specs.Working.{Logged, Works};
ghost use Rattle.tear.specs.Tried.{WayReady, LoadsLong};
ghost use Rattle.tornedge.specs.Cracks.{sides_across, opens_at, Parted, opened_across, WayAsked, TriedTo, EndsTold, PairTold, CrackTold, TriedBehind};
ghost use Rattle.mesh.specs.Blocks.{mesh_in, mesh_before, world_before, world_behind};
ghost use Rattle.mesh.specs.Limits.{particle_limit};
ghost use Rattle.work.specs.Blocks.{ReadyIn, OverBlocks};
ghost use Rattle.split.specs.Blocks.{LinkedBehind};
ghost use Rattle.mesh.specs.At.{mesh_at};

use elements::Kind;
use mesh::{Counts, Rooms};
use work::Ran;

// What trying a way came to: nothing where it doesn't open, or what its split came to.
pub type Tried = Option<Ran>;

// The groups of v's fan across the edge to w, if both sides are there and v is free: how many elements, and how many groups. The tables of the fan are here, and stand no longer than it takes.
fn way_groups(
    kind: Kind,
    v: usize,
    w: usize,
    k: Counts,
    points: &[f32],
    roots: &[usize],
    corners: &[usize],
    volumes: &[f32],
    ends: &[usize],
    lengths: &[f32],
    outline: &[usize],
    sides: &mut [usize],
    groups: &mut [usize],
    links: &[u16],
) -> Option<(usize, usize)>
    requires { WayReady v w k (length points.now) (length corners.now) (length volumes.now) (length ends.now)
        (length lengths.now) (mesh_at k points.now roots.now corners.now volumes.now ends.now lengths.now outline.now) × (2048 ≤ length sides.old)
        × (2048 ≤ length groups.old) × MeshLinked (kind_is kind) k.triangles k.edges k.boundary corners.now ends.now outline.now links.now }
    ensures { Parted (kind_is kind) v w (mesh_before k points roots corners volumes ends lengths outline) groups.new result }
{
    let mut numbers = [0usize; mesh::ELEMENTS];
    let mut verts = [0usize; mesh::ELEMENT_CORNERS];
    let mut measures = [0.0f32; mesh::ELEMENTS];
    let n = tear::tried::way_tables(
        kind,
        v,
        w,
        k,
        points,
        roots,
        corners,
        volumes,
        ends,
        lengths,
        outline,
        &mut numbers,
        &mut verts,
        &mut measures,
        sides,
        links,
    );
    if tear::ways::two_sided(v, n, sides, points) {
        let count = split::fans::group_fan(kind, v, n, &verts, sides, groups);
        return Some((n, count));
    }
    None
}

// Does the way at v open: are both sides there, and does each group reach the minimum piece?
fn way_open(
    kind: Kind,
    minimum: usize,
    v: usize,
    w: usize,
    k: Counts,
    points: &[f32],
    roots: &[usize],
    corners: &[usize],
    volumes: &[f32],
    ends: &[usize],
    lengths: &[f32],
    outline: &[usize],
    links: &[u16],
) -> bool
    requires { WayReady v w k (length points.now) (length corners.now) (length volumes.now) (length ends.now)
        (length lengths.now) (mesh_at k points.now roots.now corners.now volumes.now ends.now lengths.now outline.now)
        × MeshLinked (kind_is kind) k.triangles k.edges k.boundary corners.now ends.now outline.now links.now }
    ensures { result ≡ opens_at (kind_is kind) minimum (mesh_before k points roots corners volumes ends lengths outline) v w }
{
    let mut sides = [0usize; mesh::ELEMENTS];
    let mut groups = [0usize; mesh::ELEMENTS];
    let parts = way_groups(
        kind,
        v,
        w,
        k,
        points,
        roots,
        corners,
        volumes,
        ends,
        lengths,
        outline,
        &mut sides,
        &mut groups,
        links,
    );
    match parts {
        Some((n, count)) => tear::tried::way_opens(
            kind, v, n, count, minimum, k, points, roots, corners, volumes, ends, lengths, outline,
            &groups, &mut sides,
        ),
        None => false,
    }
}

// Splits v by the sides of its fan across the edge (x, y), whose other end is w. The sides are no longer needed where the straddlers are listed, and these stand in their table.
fn open_way(
    kind: Kind,
    v: usize,
    w: usize,
    x: usize,
    y: usize,
    a: usize,
    b: usize,
    k: Counts,
    room: Rooms,
    points: &mut [f32],
    roots: &mut [usize],
    corners: &mut [usize],
    volumes: &[f32],
    ends: &mut [usize],
    lengths: &mut [f32],
    outline: &mut [usize],
    log: &mut [u32],
    links: &mut [u16],
) -> Ran
    requires { let K = kind_is kind in let M = mesh_in k points roots corners volumes ends lengths outline in ReadyIn room k points roots
        corners volumes ends lengths outline log × WayAsked v w x y a b k.particles × (two_sided_of M v (sides_across K M v w) ≡ true)
        × LinkedIn K k corners ends outline links }
    ensures { let K = kind_is kind in OverBlocks (λ M W at. Works (opened_across K M v w (a, b) (x, y)) room W at result) k points roots
        corners volumes ends lengths outline log × LinkedBehind K corners ends outline links result }
{
    let mut numbers = [0usize; mesh::ELEMENTS];
    let mut verts = [0usize; mesh::ELEMENT_CORNERS];
    let mut measures = [0.0f32; mesh::ELEMENTS];
    let mut sides = [0usize; edge_drops::LIST];
    let mut groups = [0usize; mesh::ELEMENTS];
    let n = tear::tried::way_tables(
        kind,
        v,
        w,
        k,
        points,
        roots,
        corners,
        volumes,
        ends,
        lengths,
        outline,
        &mut numbers,
        &mut verts,
        &mut measures,
        &mut sides,
        links,
    );
    let count = split::fans::group_fan(kind, v, n, &verts, &sides, &mut groups);
    tear::opens::tear_open(
        kind, v, w, x, y, a, b, n, count, &numbers, &verts, &measures, &groups, k, room, points,
        roots, corners, volumes, ends, lengths, outline, log, &mut sides, links,
    )
}

// Tries the way at v, an end of (x, y) whose other is w: it opens, and v is split, or nothing is done.
fn try_way(
    kind: Kind,
    minimum: usize,
    v: usize,
    w: usize,
    x: usize,
    y: usize,
    a: usize,
    b: usize,
    k: Counts,
    room: Rooms,
    points: &mut [f32],
    roots: &mut [usize],
    corners: &mut [usize],
    volumes: &[f32],
    ends: &mut [usize],
    lengths: &mut [f32],
    outline: &mut [usize],
    log: &mut [u32],
    links: &mut [u16],
) -> Tried
    requires { ReadyIn room k points roots corners volumes ends lengths outline log × WayAsked v w x y a b k.particles
        × LinkedIn (kind_is kind) k corners ends outline links }
    ensures { let K = kind_is kind in TriedTo K minimum v w (a, b) (x, y) room k
        (world_before k points roots corners volumes ends lengths outline log) (λ q. world_behind q points roots corners volumes ends lengths
        outline log) result × TriedBehind K k corners ends outline links result }
{
    if way_open(
        kind, minimum, v, w, k, points, roots, corners, volumes, ends, lengths, outline, links,
    ) {
        return Some(open_way(
            kind, v, w, x, y, a, b, k, room, points, roots, corners, volumes, ends, lengths,
            outline, log, links,
        ));
    }
    None
}

// Tries the way at v, and where it does not open the way at w; v and w are the ends of (x, y).
fn crack_ends(
    kind: Kind,
    minimum: usize,
    v: usize,
    w: usize,
    x: usize,
    y: usize,
    a: usize,
    b: usize,
    k: Counts,
    room: Rooms,
    points: &mut [f32],
    roots: &mut [usize],
    corners: &mut [usize],
    volumes: &[f32],
    ends: &mut [usize],
    lengths: &mut [f32],
    outline: &mut [usize],
    log: &mut [u32],
    links: &mut [u16],
) -> Ran
    requires { ReadyIn room k points roots corners volumes ends lengths outline log × WayAsked v w x y a b k.particles
        × WayAsked w v x y a b k.particles × LinkedIn (kind_is kind) k corners ends outline links }
    ensures { let K = kind_is kind in EndsTold K minimum v w (a, b) (x, y) room
        (world_before k points roots corners volumes ends lengths outline log) (λ q. world_behind q points roots corners volumes ends lengths
        outline log) result × LinkedBehind K corners ends outline links result }
{
    let first = try_way(
        kind, minimum, v, w, x, y, a, b, k, room, points, roots, corners, volumes, ends, lengths,
        outline, log, links,
    );
    if let Some(ran) = first {
        return ran;
    }
    let second = try_way(
        kind, minimum, w, v, x, y, a, b, k, room, points, roots, corners, volumes, ends, lengths,
        outline, log, links,
    );
    match second {
        Some(ran) => ran,
        None => Ok(k),
    }
}

// Cracks the pair (x, y), which stands for the torn edge (a, b): the end with the higher mean load is tried first, then the one with the lower number.
fn crack_pair(
    kind: Kind,
    minimum: usize,
    x: usize,
    y: usize,
    a: usize,
    b: usize,
    loads: &[f32],
    k: Counts,
    room: Rooms,
    points: &mut [f32],
    roots: &mut [usize],
    corners: &mut [usize],
    volumes: &[f32],
    ends: &mut [usize],
    lengths: &mut [f32],
    outline: &mut [usize],
    log: &mut [u32],
    links: &mut [u16],
) -> Ran
    requires { ReadyIn room k points roots corners volumes ends lengths outline log × LoadsLong (kind_is kind) k (length loads.now) × (x
        < k.particles) × (y < k.particles) × (a < particle_limit) × (b < particle_limit) × LinkedIn (kind_is kind) k corners ends outline
        links }
    ensures { let K = kind_is kind in OverBlocks (λ M W at. PairTold K minimum k.triangles (a, b) (x, y) loads.now room
        W at result) k points roots corners volumes ends lengths outline log × LinkedBehind K corners ends outline links result }
{
    let other = tear::edge::turned(
        kind, x, y, k, loads, points, roots, corners, volumes, ends, lengths, outline, links,
    );
    let v = if other { y } else { x };
    let w = if other { x } else { y };
    crack_ends(
        kind, minimum, v, w, x, y, a, b, k, room, points, roots, corners, volumes, ends, lengths,
        outline, log, links,
    )
}

// Cracks the torn edge that was (a, b) in the input, if a pair stands for it still.
pub fn crack_edge(
    kind: Kind,
    minimum: usize,
    a: usize,
    b: usize,
    loads: &[f32],
    k: Counts,
    room: Rooms,
    points: &mut [f32],
    roots: &mut [usize],
    corners: &mut [usize],
    volumes: &[f32],
    ends: &mut [usize],
    lengths: &mut [f32],
    outline: &mut [usize],
    log: &mut [u32],
    links: &mut [u16],
) -> Ran
    requires { let K = kind_is kind in ReadyIn room k points roots corners volumes ends lengths outline log × Logged k.log log.old
        × LoadsLong K k (length loads.now) × (a < particle_limit) × (b < particle_limit) × LinkedIn K k corners ends outline links }
    ensures { let K = kind_is kind in CrackTold K minimum a b k.triangles loads.now room
        (world_before k points roots corners volumes ends lengths outline log) (λ q. world_behind q points roots corners volumes ends lengths
        outline log) result × LinkedBehind K corners ends outline links result }
{
    let pair = tear::edge::pair_now(
        kind, a, b, k, points, roots, corners, volumes, ends, lengths, outline, log,
    );
    match pair {
        None => Ok(k),
        Some((x, y)) => crack_pair(
            kind, minimum, x, y, a, b, loads, k, room, points, roots, corners, volumes, ends,
            lengths, outline, log, links,
        ),
    }
}

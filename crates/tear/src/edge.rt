// A torn edge before a way is tried: the pair that stands for it now, and which of its ends goes first.
ghost use Rattle.std.specs.Prelude.{length};
ghost use Rattle.elements.specs.Table.{kind_is};
ghost use Rattle.links.specs.Linked.{MeshLinked};
ghost use Rattle.work.specs.Working.{Logged};
ghost use Rattle.tear.specs.Tried.{WayReady, LoadsLong};
ghost use Rattle.tear.specs.Pairs.{PairReady, PairMetNow, PairNow, Turned};
ghost use Rattle.mesh.specs.Blocks.{mesh_before};
ghost use Rattle.mesh.specs.At.{mesh_at};
ghost use Rattle.mesh.specs.Log.{world_at};

use elements::Kind;
use mesh::Counts;

// The first pair of the families of a and b that one element holds, or else the first that an edge joins. The elements and the families are read into tables for it.
fn pair_met(
    in_element: bool,
    kind: Kind,
    a: usize,
    b: usize,
    k: Counts,
    points: &[f32],
    roots: &[usize],
    corners: &[usize],
    volumes: &[f32],
    ends: &[usize],
    lengths: &[f32],
    outline: &[usize],
    log: &[u32],
) -> Option<(usize, usize)>
    requires { PairReady k (length corners.now) (length volumes.now) (length ends.now) (length lengths.now) (length log.now)
        (mesh_at k points.now roots.now corners.now volumes.now ends.now lengths.now outline.now) × Logged k.log log.now }
    ensures { PairMetNow in_element (kind_is kind) a b (world_at k points.now roots.now corners.now volumes.now ends.now lengths.now outline.now log.now) result }
{
    let mut numbers = [0usize; mesh::ELEMENTS];
    let mut verts = [0usize; mesh::ELEMENT_CORNERS];
    let mut measures = [0.0f32; mesh::ELEMENTS];
    let n = elements::element_table(
        kind,
        k.triangles,
        k.edges,
        corners,
        volumes,
        ends,
        lengths,
        &mut numbers,
        &mut verts,
        &mut measures,
    );
    let per = elements::corners_per(kind);
    crate::families::family_pair(in_element, a, b, k.log, log, per, n, &verts, k.edges, ends)
}

// The particles that now stand for the torn edge (a, b), if any.
pub fn pair_now(
    kind: Kind,
    a: usize,
    b: usize,
    k: Counts,
    points: &[f32],
    roots: &[usize],
    corners: &[usize],
    volumes: &[f32],
    ends: &[usize],
    lengths: &[f32],
    outline: &[usize],
    log: &[u32],
) -> Option<(usize, usize)>
    requires { PairReady k (length corners.now) (length volumes.now) (length ends.now) (length lengths.now) (length log.now)
        (mesh_at k points.now roots.now corners.now volumes.now ends.now lengths.now outline.now) × Logged k.log log.now }
    ensures { PairNow (kind_is kind) a b k.particles (world_at k points.now roots.now corners.now volumes.now ends.now lengths.now outline.now log.now) result }
{
    let held = pair_met(
        true, kind, a, b, k, points, roots, corners, volumes, ends, lengths, outline, log,
    );
    match held {
        Some((x, y)) => Some((x, y)),
        None => pair_met(
            false, kind, a, b, k, points, roots, corners, volumes, ends, lengths, outline, log,
        ),
    }
}

// Whether the way at y goes before the way at x: the higher mean load does, then the lower number.
pub fn turned(
    kind: Kind,
    x: usize,
    y: usize,
    k: Counts,
    loads: &[f32],
    points: &[f32],
    roots: &[usize],
    corners: &[usize],
    volumes: &[f32],
    ends: &[usize],
    lengths: &[f32],
    outline: &[usize],
    links: &[u16],
) -> bool
    requires { let K = kind_is kind in WayReady x y k (length points.now) (length corners.now) (length volumes.now)
        (length ends.now) (length lengths.now) (mesh_at k points.now roots.now corners.now volumes.now ends.now lengths.now outline.now)
        × LoadsLong K k (length loads.now) × MeshLinked K k.triangles k.edges k.boundary corners.now ends.now outline.now links.now }
    ensures { Turned (kind_is kind) x y k.triangles loads.now (mesh_before k points roots corners volumes ends lengths
        outline) result }
{
    let p = crate::tried::way_load(
        kind, x, y, k, loads, points, roots, corners, volumes, ends, lengths, outline, links,
    );
    let q = crate::tried::way_load(
        kind, y, x, k, loads, points, roots, corners, volumes, ends, lengths, outline, links,
    );
    crate::ways::goes_first(q, y, p, x)
}

// One way to open an edge: the fan of one end in tables, with the sides across the edge, and their mean load.
ghost use Rattle.std.specs.Prelude.{◌≡◌, ◌≤◌, length};
ghost use Rattle.elements.specs.Table.{kind_is, TableRoom};
ghost use Rattle.links.specs.Linked.{MeshLinked};
ghost use Rattle.model.specs.Elements.{fan_of};
ghost use Rattle.model.specs.Pieces.{opens_without_confetti_of};
ghost use Rattle.split.specs.Tables.{opened_by};
ghost use Rattle.tear.specs.Tried.{WayReady, WayTables, WayRead, LoadsLong, WayLoad, OpensRoom};
ghost use Rattle.mesh.specs.Blocks.{mesh_before};
ghost use Rattle.mesh.specs.At.{mesh_at};

use elements::Kind;
use mesh::Counts;

// The fan of v in tables, and the side of each of its elements across the edge to w; returns how many they are.
pub fn way_tables(
    kind: Kind,
    v: usize,
    w: usize,
    k: Counts,
    points: &[f32],
    roots: &[usize],
    corners: &[usize],
    volumes: &[f32],
    ends: &[usize],
    lengths: &[f32],
    outline: &[usize],
    numbers: &mut [usize],
    verts: &mut [usize],
    measures: &mut [f32],
    sides: &mut [usize],
    links: &[u16],
) -> usize
    requires { WayReady v w k (length points.now) (length corners.now) (length volumes.now) (length ends.now)
        (length lengths.now) (mesh_at k points.now roots.now corners.now volumes.now ends.now lengths.now outline.now) × WayTables (length numbers.old)
        (length verts.old) (length measures.old) (length sides.old) × MeshLinked (kind_is kind) k.triangles k.edges k.boundary corners.now ends.now outline.now links.now }
    ensures { WayRead (kind_is kind) v w (mesh_before k points roots corners volumes ends lengths outline) result numbers.new
        verts.new measures.new sides.new }
{
    let n = split::fans::fan_tables(
        kind,
        v,
        k.triangles,
        k.edges,
        corners,
        volumes,
        ends,
        lengths,
        numbers,
        verts,
        measures,
        links,
    );
    let per = elements::corners_per(kind);
    crate::ways::far_sides(v, w, n, per, verts, points, sides);
    n
}

// The mean load of the elements beyond the line through v across the edge to w.
pub fn way_load(
    kind: Kind,
    v: usize,
    w: usize,
    k: Counts,
    loads: &[f32],
    points: &[f32],
    roots: &[usize],
    corners: &[usize],
    volumes: &[f32],
    ends: &[usize],
    lengths: &[f32],
    outline: &[usize],
    links: &[u16],
) -> f32
    requires { let K = kind_is kind in WayReady v w k (length points.now) (length corners.now) (length volumes.now)
        (length ends.now) (length lengths.now) (mesh_at k points.now roots.now corners.now volumes.now ends.now lengths.now outline.now)
        × LoadsLong K k (length loads.now) × MeshLinked K k.triangles k.edges k.boundary corners.now ends.now outline.now links.now }
    ensures { WayLoad (kind_is kind) v w k loads.now (mesh_before k points roots corners volumes ends lengths outline) result }
{
    let mut numbers = [0usize; mesh::ELEMENTS];
    let mut verts = [0usize; mesh::ELEMENT_CORNERS];
    let mut measures = [0.0f32; mesh::ELEMENTS];
    let mut sides = [0usize; mesh::ELEMENTS];
    let n = way_tables(
        kind,
        v,
        w,
        k,
        points,
        roots,
        corners,
        volumes,
        ends,
        lengths,
        outline,
        &mut numbers,
        &mut verts,
        &mut measures,
        &mut sides,
        links,
    );
    crate::ways::mean_load(kind, n, &numbers, &sides, loads, lengths)
}

// Do the groups of the fan of v, with n elements, each reach the minimum piece through the elements of the mesh? The queue is lent to work in: what stands in it does not matter.
pub fn way_opens(
    kind: Kind,
    v: usize,
    n: usize,
    count: usize,
    minimum: usize,
    k: Counts,
    points: &[f32],
    roots: &[usize],
    corners: &[usize],
    volumes: &[f32],
    ends: &[usize],
    lengths: &[f32],
    outline: &[usize],
    groups: &[usize],
    queue: &mut [usize],
) -> bool
    requires { TableRoom k.triangles k.edges (length corners.now) (length volumes.now) (length ends.now)
        (length lengths.now) 2048 4096 2048 × OpensRoom n (length (fan_of (kind_is kind) (mesh_at k points.now roots.now corners.now volumes.now ends.now lengths.now outline.now) v)) (length groups.now) × (2048 ≤ length queue.old) }
    ensures { let K = kind_is kind in let M = mesh_before k points roots corners volumes ends lengths outline in result
        ≡ opens_without_confetti_of K M minimum (opened_by K M v n count groups.now) }
{
    let mut numbers = [0usize; mesh::ELEMENTS];
    let mut verts = [0usize; mesh::ELEMENT_CORNERS];
    let mut measures = [0.0f32; mesh::ELEMENTS];
    let mut seen = [0usize; mesh::ELEMENTS];
    let m = elements::element_table(
        kind,
        k.triangles,
        k.edges,
        corners,
        volumes,
        ends,
        lengths,
        &mut numbers,
        &mut verts,
        &mut measures,
    );
    let per = elements::corners_per(kind);
    reach::opens_without_confetti(
        m,
        per,
        v,
        &verts,
        &groups[..n],
        count,
        minimum,
        &mut seen,
        queue,
    )
}

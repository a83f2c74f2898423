// One particle split by the groups of its fan, as one step over the lent blocks.
ghost use Rattle.std.specs.Prelude.{◌≡◌, ◌+◌, ◌*◌, ◌/◌, ◌<◌, ◌≤◌, length, get_or, take};
ghost use Rattle.std.specs.Float.{nan};
ghost use Rattle.std.specs.Float.Ieee.{ne};
ghost use Rattle.float.specs.Numbers.{zero32};
ghost use Rattle.elements.specs.Table.{kind_is};
ghost use Rattle.model.specs.Elements.{corners_per_of};
ghost use Rattle.model.specs.Split.{split_by_sides_of};
ghost use Rattle.mesh.specs.Filled.{lent};
ghost use Rattle.mesh.specs.Widths.{point_columns};
ghost use Rattle.split.specs.Tables.{opened_by, SidesGiven};
ghost use Rattle.links.specs.Linked.{LinkedIn};
ghost use Rattle.split.specs.Steps.{Stepped};
ghost use Rattle.mesh.specs.Blocks.{mesh_in};
ghost use Rattle.work.specs.Blocks.{ReadyIn};
ghost use Rattle.edge_drops.specs.Parted.{PartsIn};
ghost use Rattle.split.specs.Blocks.{GroupedIn, SidedIn, ListIn, OverParted, LinkedParted, EdgesBehind};

use crate::Grew;
use crate::fans::{FEW, FEW_CORNERS, MANY, MANY_CORNERS, fan_tables};
use elements::Kind;
use mesh::{Counts, Rooms};
use work::Ran;

// Splits v by the groups of its fan. `extra` entries more must have room in the log: the caller writes them. The straddlers stay in the blocks and in the tables, and are listed.
pub fn split_opened(
    kind: Kind,
    v: usize,
    n: usize,
    count: usize,
    extra: usize,
    numbers: &[usize],
    verts: &[usize],
    measures: &[f32],
    groups: &[usize],
    k: Counts,
    room: Rooms,
    points: &mut [f32],
    roots: &mut [usize],
    corners: &mut [usize],
    volumes: &[f32],
    ends: &mut [usize],
    lengths: &mut [f32],
    outline: &mut [usize],
    log: &mut [u32],
    list: &mut [usize],
    links: &mut [u16],
) -> Ran
    requires { let K = kind_is kind in ReadyIn room k points roots corners volumes ends lengths outline log
        × GroupedIn K (mesh_in k points roots corners volumes ends lengths outline) v n count numbers verts measures groups × (extra ≤ 1)
        × ListIn list × LinkedIn K k corners ends outline links }
    ensures { let K = kind_is kind in OverParted (λ M W at. Stepped K (opened_by K M v n count groups.now) room extra
        W at result) k points roots corners volumes ends lengths outline log list × EdgesBehind K corners ends lengths outline links list result }
{
    let before = k.particles;
    let t = k.triangles;
    let b = k.boundary;
    let g = k.log;
    let e = crate::grow::grow(
        kind, v, n, count, numbers, verts, measures, groups, k, room, points, roots, corners, ends,
        lengths, list, links,
    )?;
    let longest = Counts {
        particles: before + count - 1,
        triangles: t,
        edges: e,
        boundary: b,
        log: g,
    };
    crate::settle::settle(
        kind, v, before, n, count, extra, numbers, verts, groups, longest, room, points, corners,
        volumes, ends, lengths, outline, log, list, links,
    )
}

// Is v free: is its inverse mass not 0?
pub fn is_free(v: usize, points: &[f32]) -> bool
    requires { v < length points.now / point_columns }
    ensures { result ≡ ne (get_or points.now (5 * (length points.now / point_columns) + v) nan) zero32 }
{
    let size = points.len() / mesh::POINT_COLUMNS;
    points[5 * size + v] != 0.0
}

// Splits v by the sides of its fan, which stands in the tables, if it splits at all. The groups are found in a lent table, and the straddlers are listed.
pub fn split_tabled(
    kind: Kind,
    v: usize,
    n: usize,
    numbers: &[usize],
    verts: &[usize],
    measures: &[f32],
    sides: &[usize],
    groups: &mut [usize],
    k: Counts,
    room: Rooms,
    points: &mut [f32],
    roots: &mut [usize],
    corners: &mut [usize],
    volumes: &[f32],
    ends: &mut [usize],
    lengths: &mut [f32],
    outline: &mut [usize],
    log: &mut [u32],
    list: &mut [usize],
    links: &mut [u16],
) -> Ran
    requires { let K = kind_is kind in ReadyIn room k points roots corners volumes ends lengths outline log
        × SidedIn K (mesh_in k points roots corners volumes ends lengths outline) v n numbers verts measures sides
        × (n ≤ length groups.old) × ListIn list × LinkedIn K k corners ends outline links }
    ensures { let K = kind_is kind in PartsIn (split_by_sides_of K v (take n sides.now)) room k points roots corners volumes
        ends lengths outline log list result × LinkedParted K corners ends outline links list result }
{
    list[edge_drops::LISTED] = 0;
    let count = crate::fans::group_fan(kind, v, n, verts, sides, groups);
    if count < 2 {
        return Ok(k);
    }
    if is_free(v, points) {
        return split_opened(
            kind, v, n, count, 0, numbers, verts, measures, groups, k, room, points, roots,
            corners, volumes, ends, lengths, outline, log, list, links,
        );
    }
    Ok(k)
}

// Splits v by a side for each element of its fan, in tables of its own for N elements and C corners, where these are enough for so many sides.
fn split_in<const N: usize, const C: usize>(
    kind: Kind,
    v: usize,
    sides: &[usize],
    k: Counts,
    room: Rooms,
    points: &mut [f32],
    roots: &mut [usize],
    corners: &mut [usize],
    volumes: &[f32],
    ends: &mut [usize],
    lengths: &mut [f32],
    outline: &mut [usize],
    log: &mut [u32],
    list: &mut [usize],
    links: &mut [u16],
) -> Ran
    requires { let K = kind_is kind in ReadyIn room k points roots corners volumes ends lengths outline log
        × SidesGiven K (mesh_in k points roots corners volumes ends lengths outline) v sides.now × ListIn list
        × LinkedIn K k corners ends outline links × (N ≤ 2048) × (C ≤ 4096) × (length sides.now ≤ 2048 → length sides.now ≤ N)
        × (length sides.now * corners_per_of K ≤ 4096 → length sides.now * corners_per_of K ≤ C) }
    ensures { PartsIn (split_by_sides_of (kind_is kind) v sides.now) room k points roots corners volumes ends lengths outline
        log list result }
{
    let mut numbers = [0usize; N];
    let mut verts = [0usize; C];
    let mut measures = [0.0f32; N];
    let mut groups = [0usize; N];
    let n = fan_tables(
        kind,
        v,
        k.triangles,
        k.edges,
        corners,
        volumes,
        ends,
        lengths,
        &mut numbers,
        &mut verts,
        &mut measures,
        links,
    );
    split_tabled(
        kind,
        v,
        n,
        &numbers,
        &verts,
        &measures,
        sides,
        &mut groups,
        k,
        room,
        points,
        roots,
        corners,
        volumes,
        ends,
        lengths,
        outline,
        log,
        list,
        links,
    )
}

// Splits v by a side for each element of its fan, over tables of links of its own; where v is pinned none is made. The straddlers are listed.
fn split_fan(
    kind: Kind,
    v: usize,
    sides: &[usize],
    k: Counts,
    room: Rooms,
    points: &mut [f32],
    roots: &mut [usize],
    corners: &mut [usize],
    volumes: &[f32],
    ends: &mut [usize],
    lengths: &mut [f32],
    outline: &mut [usize],
    log: &mut [u32],
    list: &mut [usize],
) -> Ran
    requires { ReadyIn room k points roots corners volumes ends lengths outline log
        × SidesGiven (kind_is kind) (mesh_in k points roots corners volumes ends lengths outline) v sides.now × ListIn list }
    ensures { PartsIn (split_by_sides_of (kind_is kind) v sides.now) room k points roots corners volumes ends lengths outline
        log list result }
{
    list[edge_drops::LISTED] = 0;
    if !is_free(v, points) {
        return Ok(k);
    }
    let mut links = [0u16; links::PLACES];
    links::link_mesh(
        kind,
        k.triangles,
        k.edges,
        k.boundary,
        corners,
        ends,
        outline,
        &mut links,
    );
    if sides.len() <= FEW {
        return split_in::<FEW, FEW_CORNERS>(
            kind, v, sides, k, room, points, roots, corners, volumes, ends, lengths, outline, log,
            list, &mut links,
        );
    }
    split_in::<MANY, MANY_CORNERS>(
        kind, v, sides, k, room, points, roots, corners, volumes, ends, lengths, outline, log,
        list, &mut links,
    )
}

// Splits v by a side for each element of its fan, by their kind. The straddlers are listed.
pub fn split_by_sides(
    kind: Kind,
    v: usize,
    sides: &[usize],
    k: Counts,
    room: Rooms,
    points: &mut [f32],
    roots: &mut [usize],
    corners: &mut [usize],
    volumes: &[f32],
    ends: &mut [usize],
    lengths: &mut [f32],
    outline: &mut [usize],
    log: &mut [u32],
    list: &mut [usize],
) -> Ran
    requires { ReadyIn room k points roots corners volumes ends lengths outline log
        × SidesGiven (kind_is kind) (mesh_in k points roots corners volumes ends lengths outline) v sides.now × ListIn list }
    ensures { PartsIn (split_by_sides_of (kind_is kind) v sides.now) room k points roots corners volumes ends lengths outline
        log list result }
{
    match kind {
        Kind::Triangles => split_fan(
            Kind::Triangles,
            v,
            sides,
            k,
            room,
            points,
            roots,
            corners,
            volumes,
            ends,
            lengths,
            outline,
            log,
            list,
        ),
        Kind::Straps => split_fan(
            Kind::Straps,
            v,
            sides,
            k,
            room,
            points,
            roots,
            corners,
            volumes,
            ends,
            lengths,
            outline,
            log,
            list,
        ),
        Kind::Nothing => {
            list[edge_drops::LISTED] = 0;
            Ok(k)
        }
    }
}

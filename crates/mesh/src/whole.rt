// Whole meshes: the input copied to the lent blocks, the lent blocks finished with zeros, and the rooms of lent blocks.
ghost use Rattle.std.specs.Prelude.{◌≡◌, ℕ, min, []};
ghost use Rattle.mesh.specs.Given.{rooms_of};
ghost use Rattle.mesh.specs.Filled.{Filled, Fits, Holds, lent};
ghost use Rattle.mesh.specs.Blocks.{mesh_before, mesh_behind, lent_in, lent_before, blocks_in, inputs_in};
ghost use Rattle.mesh.specs.Log.{world_at};

use crate::{Counts, POINT_COLUMNS, Rooms};

// The smaller of two.
pub fn least(a: usize, b: usize) -> usize
    ensures { result ≡ min a b }
{
    if a <= b { a } else { b }
}

// The rooms of the lists, from the lengths of the eight lent blocks.
pub fn rooms_for(
    lp: usize,
    lr: usize,
    lc: usize,
    lv: usize,
    le: usize,
    ll: usize,
    lo: usize,
    lg: usize,
) -> Rooms
    ensures { result ≡ rooms_of
        (record { points = lp; roots = lr; corners = lc; volumes = lv; ends = le; lengths = ll; outline = lo; log = lg }) }
{
    let p = least(
        crate::PARTICLES,
        least(lp / POINT_COLUMNS, lr / crate::ROOT_COLUMNS),
    );
    let t = least(
        crate::TRIANGLES,
        least(lc / crate::CORNER_COLUMNS, lv / crate::VOLUME_COLUMNS),
    );
    let e = least(
        crate::EDGES,
        least(le / crate::END_COLUMNS, ll / crate::LENGTH_COLUMNS),
    );
    let b = least(crate::BOUNDARY, lo / crate::SIDE_COLUMNS);
    let g = least(crate::ENTRIES, lg / crate::ENTRY_WORDS);
    Rooms {
        particles: p,
        triangles: t,
        edges: e,
        boundary: b,
        log: g,
    }
}

// Copies the seven blocks of an input, whose counts are k, to the fronts of the columns lent for them.
pub fn copy_all(
    k: Counts,
    in_points: &[f32],
    in_roots: &[usize],
    in_corners: &[usize],
    in_volumes: &[f32],
    in_ends: &[usize],
    in_lengths: &[f32],
    in_outline: &[usize],
    points: &mut [f32],
    roots: &mut [usize],
    corners: &mut [usize],
    volumes: &mut [f32],
    ends: &mut [usize],
    lengths: &mut [f32],
    outline: &mut [usize],
)
    requires fits { Fits k (inputs_in in_points in_roots in_corners in_volumes in_ends in_lengths in_outline) }
    requires holds { Holds (inputs_in in_points in_roots in_corners in_volumes in_ends in_lengths in_outline)
        (blocks_in points roots corners volumes ends lengths outline) }
    ensures { mesh_behind k points roots corners volumes ends lengths outline
        ≡ mesh_before k in_points in_roots in_corners in_volumes in_ends in_lengths in_outline }
{
    columns::copy_block(
        in_points,
        in_points.len() / POINT_COLUMNS,
        POINT_COLUMNS,
        points.len() / POINT_COLUMNS,
        points,
    );
    columns::copy_block(in_roots, in_roots.len() / 2, 2, roots.len() / 2, roots);
    columns::copy_block(
        in_corners,
        in_corners.len() / 3,
        3,
        corners.len() / 3,
        corners,
    );
    columns::copy_block(
        in_volumes,
        in_volumes.len() / 2,
        2,
        volumes.len() / 2,
        volumes,
    );
    columns::copy_block(in_ends, in_ends.len() / 4, 4, ends.len() / 4, ends);
    columns::copy_block(
        in_lengths,
        in_lengths.len() / 4,
        4,
        lengths.len() / 4,
        lengths,
    );
    columns::copy_block(
        in_outline,
        in_outline.len() / 2,
        2,
        outline.len() / 2,
        outline,
    );
}

// Puts 0 behind the counts, in every block and in the log.
pub fn finish_all(
    k: Counts,
    points: &mut [f32],
    roots: &mut [usize],
    corners: &mut [usize],
    volumes: &mut [f32],
    ends: &mut [usize],
    lengths: &mut [f32],
    outline: &mut [usize],
    log: &mut [usize],
)
    requires { Fits k (lent_in points roots corners volumes ends lengths outline log) }
    ensures { Filled (world_at k points.old roots.old corners.old volumes.old ends.old lengths.old outline.old log.old)
        (lent_before points roots corners volumes ends lengths outline log) points.new roots.new corners.new
        volumes.new ends.new lengths.new outline.new log.new }
{
    columns::clear_block(
        k.particles,
        POINT_COLUMNS,
        points.len() / POINT_COLUMNS,
        points,
    );
    columns::clear_block(k.particles, 2, roots.len() / 2, roots);
    columns::clear_block(k.triangles, 3, corners.len() / 3, corners);
    columns::clear_block(k.triangles, 2, volumes.len() / 2, volumes);
    columns::clear_block(k.edges, 4, ends.len() / 4, ends);
    columns::clear_block(k.edges, 4, lengths.len() / 4, lengths);
    columns::clear_block(k.boundary, 2, outline.len() / 2, outline);
    columns::clear(6 * k.log, log);
}

// The cut of straps along a blade: insertions at the crossings, bend edges removed, snapped ends split.
ghost use Rattle.std.specs.Prelude.{◌≤◌, length};
ghost use Rattle.lists.specs.Lists.{fold};
ghost use Rattle.model.specs.Cut.{split_snapped_of, cut_segments_of};
ghost use Rattle.work.specs.Working.{Logged};
ghost use Rattle.marks.specs.Marking.{blade_from};
ghost use Rattle.split.specs.Blocks.{ListIn};
ghost use Rattle.cut.specs.Running.{chosen, Chosen};
ghost use Rattle.crossing.specs.Crossed.{CrossIn};
ghost use Rattle.strap_cut.specs.Segments.{MarksLent, AfterTold, BladeCrossedIn};
ghost use Rattle.mesh.specs.Blocks.{world_before, world_behind};
ghost use Rattle.work.specs.Blocks.{ReadyIn, WorksIn};

use blade::Point;
use cut::facets::Parting;
use elements::Kind;
use mesh::{Counts, Rooms};
use work::Ran;

// Finds the crossings of the blade with the straps, and does them in turn, until one lacks room. Their tables are here, and so is that of the edges at each particle.
fn cross_blade(
    b0: Point,
    b1: Point,
    f: f32,
    k: Counts,
    room: Rooms,
    points: &mut [f32],
    roots: &mut [usize],
    ends: &mut [usize],
    lengths: &mut [f32],
    outline: &mut [usize],
    log: &mut [u32],
    bends: &mut [usize],
    snapped: &mut [usize],
) -> Ran
    requires { CrossIn room k points roots ends lengths outline log bends snapped × Logged k.log log.old }
    ensures { BladeCrossedIn b0 b1 f room k points roots ends lengths outline log bends snapped result }
{
    let mut numbers = [0u16; mesh::EDGES];
    let mut ts = [0.0f32; mesh::EDGES];
    let mut table = [0u16; 5120];
    links::build_links(
        k.edges,
        2,
        mesh::PARTICLES,
        mesh::EDGES,
        ends.len() / mesh::END_COLUMNS,
        ends,
        &mut table,
    );
    let m = crossing::crossings::find_crossings(
        b0,
        b1,
        k.edges,
        points,
        ends,
        &mut numbers,
        &mut ts,
    );
    crossing::crossed::cross_all(
        f, m, &numbers, &ts, k, room, points, roots, ends, lengths, outline, log, bends, snapped,
        &mut table,
    )
}

// Splits each marked particle below p by the blade, with slack edges at its copies; where none is marked nothing is done. The tables of links are built once, and every split keeps them.
fn split_snapped(
    b0: Point,
    b1: Point,
    p: usize,
    marks: &[usize],
    k: Counts,
    room: Rooms,
    points: &mut [f32],
    roots: &mut [usize],
    corners: &mut [usize],
    volumes: &[f32],
    ends: &mut [usize],
    lengths: &mut [f32],
    outline: &mut [usize],
    log: &mut [u32],
    list: &mut [usize],
) -> Ran
    requires { ReadyIn room k points roots corners volumes ends lengths outline log × Chosen p k log.old (length marks.now)
        × ListIn list }
    ensures { WorksIn (λ R. fold (split_snapped_of (blade_from b0 b1)) R (chosen p marks.now)) room k points roots corners
        volumes ends lengths outline log result }
{
    if columns::next_marked(marks, 0, p) == p {
        return Ok(k);
    }
    let mut links = [0u16; links::PLACES];
    links::link_mesh(
        Kind::Straps,
        k.triangles,
        k.edges,
        k.boundary,
        corners,
        ends,
        outline,
        &mut links,
    );
    cut::facets::split_marked(
        Parting::Snapped(b0, b1),
        Kind::Straps,
        p,
        marks,
        k,
        room,
        points,
        roots,
        corners,
        volumes,
        ends,
        lengths,
        outline,
        log,
        list,
        &mut links,
    )
}

// The marked bend edges go, and then the snapped ends are split by the blade: the marks of the edges are no longer needed by then, and the splits work in their table.
pub fn after_crossings(
    b0: Point,
    b1: Point,
    snapped: &[usize],
    k: Counts,
    room: Rooms,
    points: &mut [f32],
    roots: &mut [usize],
    corners: &mut [usize],
    volumes: &[f32],
    ends: &mut [usize],
    lengths: &mut [f32],
    outline: &mut [usize],
    log: &mut [u32],
    bends: &mut [usize],
) -> Ran
    requires { ReadyIn room k points roots corners volumes ends lengths outline log × Logged k.log log.old
        × MarksLent (length bends.old) (length snapped.now) }
    ensures { AfterTold (blade_from b0 b1) room k.edges (world_before k points roots corners volumes ends lengths outline log)
        (λ q. world_behind q points roots corners volumes ends lengths outline log) bends.old snapped.now result }
{
    let p = k.particles;
    let left = crossing::unbent::remove_bends(bends, k, room, ends, lengths, outline, log)?;
    split_snapped(
        b0, b1, p, snapped, left, room, points, roots, corners, volumes, ends, lengths, outline,
        log, bends,
    )
}

// Inserts at the crossings or marks their near ends; then removes the bend edges over the insertions and splits the marked ends. The marks are of those ends, the bends of those edges.
pub fn cut_segments(
    b0: Point,
    b1: Point,
    f: f32,
    k: Counts,
    room: Rooms,
    points: &mut [f32],
    roots: &mut [usize],
    corners: &mut [usize],
    volumes: &[f32],
    ends: &mut [usize],
    lengths: &mut [f32],
    outline: &mut [usize],
    log: &mut [u32],
    marks: &mut [usize],
    bends: &mut [usize],
) -> Ran
    requires { ReadyIn room k points roots corners volumes ends lengths outline log × Logged k.log log.old
        × (1024 ≤ length marks.old) × ListIn bends }
    ensures { WorksIn (cut_segments_of (blade_from b0 b1) f) room k points roots corners volumes ends lengths outline log result }
{
    columns::clear(0, bends);
    columns::clear(0, marks);
    let crossed = cross_blade(
        b0, b1, f, k, room, points, roots, ends, lengths, outline, log, bends, marks,
    )?;
    after_crossings(
        b0, b1, marks, crossed, room, points, roots, corners, volumes, ends, lengths, outline, log,
        bends,
    )
}

// The cut along a blade, by the kind of a mesh.
ghost use Rattle.elements.specs.Table.{kind_is};
ghost use Rattle.model.specs.Cut.{cut_facets_of, cut_segments_of, cut_along};
ghost use Rattle.marks.specs.Marking.{blade_by, blade_from};
ghost use Rattle.work.specs.Working.{Logged};
ghost use Rattle.work.specs.Blocks.{ReadyIn, WorksIn};
ghost use Rattle.split.specs.Blocks.{ListIn};

use blade::Point;
use elements::Kind;
use marks::Rule;
use mesh::{Counts, Rooms};
use work::Ran;

// Cuts triangles along the blade. The tables of the cut are here, and stand no longer than it takes.
fn cut_triangles(
    rule: Rule,
    b0: Point,
    b1: Point,
    k: Counts,
    room: Rooms,
    points: &mut [f32],
    roots: &mut [usize],
    corners: &mut [usize],
    volumes: &[f32],
    ends: &mut [usize],
    lengths: &mut [f32],
    outline: &mut [usize],
    log: &mut [u32],
) -> Ran
    requires { ReadyIn room k points roots corners volumes ends lengths outline log × Logged k.log log.old }
    ensures { WorksIn (cut_facets_of (blade_by rule b0 b1)) room k points roots corners volumes ends lengths outline log result }
{
    let mut marks = [0usize; mesh::PARTICLES];
    let mut list = [0usize; edge_drops::LIST];
    let mut links = [0u16; links::PLACES];
    links::link_mesh(
        Kind::Triangles,
        k.triangles,
        k.edges,
        k.boundary,
        corners,
        ends,
        outline,
        &mut links,
    );
    cut::facets::cut_facets(
        rule, b0, b1, k, room, points, roots, corners, volumes, ends, lengths, outline, log,
        &mut marks, &mut list, &mut links,
    )
}

// Cuts straps across the blade. The marks are here; the list that is lent has the marks of bend edges first, and then the edges that the splits list.
fn cut_straps(
    b0: Point,
    b1: Point,
    f: f32,
    k: Counts,
    room: Rooms,
    points: &mut [f32],
    roots: &mut [usize],
    corners: &mut [usize],
    volumes: &[f32],
    ends: &mut [usize],
    lengths: &mut [f32],
    outline: &mut [usize],
    log: &mut [u32],
    list: &mut [usize],
) -> Ran
    requires { ReadyIn room k points roots corners volumes ends lengths outline log × Logged k.log log.old × ListIn list }
    ensures { WorksIn (cut_segments_of (blade_from b0 b1) f) room k points roots corners volumes ends lengths outline log result }
{
    let mut marks = [0usize; mesh::PARTICLES];
    crate::segments::cut_segments(
        b0, b1, f, k, room, points, roots, corners, volumes, ends, lengths, outline, log,
        &mut marks, list,
    )
}

// Cuts a mesh along the blade from one point to another: triangles by a rule; straps by rounded numbers alone, with the least fraction of an insertion. A mesh of neither kind stays as it is. What stands in the lent list before does not matter.
pub fn run(
    rule: Rule,
    b0: Point,
    b1: Point,
    f: f32,
    kind: Kind,
    k: Counts,
    room: Rooms,
    points: &mut [f32],
    roots: &mut [usize],
    corners: &mut [usize],
    volumes: &[f32],
    ends: &mut [usize],
    lengths: &mut [f32],
    outline: &mut [usize],
    log: &mut [u32],
    list: &mut [usize],
) -> Ran
    requires { ReadyIn room k points roots corners volumes ends lengths outline log × Logged k.log log.old × ListIn list }
    ensures { WorksIn (cut_along (kind_is kind) (blade_by rule b0 b1) f) room k points roots corners volumes ends lengths outline log result }
{
    match kind {
        Kind::Triangles => cut_triangles(
            rule, b0, b1, k, room, points, roots, corners, volumes, ends, lengths, outline, log,
        ),
        Kind::Straps => cut_straps(
            b0, b1, f, k, room, points, roots, corners, volumes, ends, lengths, outline, log, list,
        ),
        Kind::Nothing => Ok(k),
    }
}

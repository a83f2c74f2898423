// The first half of a split: the elements and the other edges of v go to the copies of their groups, and the copies share v's mass.
ghost use Rattle.std.specs.Prelude.{◌/◌, length, take};
ghost use Rattle.elements.specs.Table.{kind_is};
ghost use Rattle.links.specs.Linked.{TrianglesLinked};
ghost use Rattle.link_splits.specs.Splits.{SplitRoom};
ghost use Rattle.rewire.specs.Stages.{TrianglesRewired};
ghost use Rattle.rewire.specs.Parts.{PartsRoom};
ghost use Rattle.split.specs.Growing.{ElementsRewired, ShareRoom, SharedOut};
ghost use Rattle.split.specs.Blocks.{ElementsIn, FrontBehind, GrowIn, GrewIn};
ghost use Rattle.mesh.specs.Widths.{corner_columns};
ghost use Rattle.mesh.specs.Limits.{particle_limit, triangle_limit};

use crate::Grew;
use elements::Kind;
use mesh::refusals::Refusal;
use mesh::{Counts, Rooms};

// Puts the copies of the groups for v in the corners of the fan's triangles. The table goes first: it finds v by the corners before the split.
fn rewire_linked(
    v: usize,
    before: usize,
    t: usize,
    n: usize,
    numbers: &[usize],
    groups: &[usize],
    corners: &mut [usize],
    links: &mut [u16],
)
    requires { PartsRoom before n (length corners.old / corner_columns) numbers.now groups.now × SplitRoom v before particle_limit
        corner_columns triangle_limit (length corners.old / corner_columns) t (take n numbers.now) (take n groups.now) corners.old links.old }
    ensures { TrianglesRewired v before n numbers.now groups.now corners.old corners.new
        × TrianglesLinked t corners.new links.new }
{
    let rows = corners.len() / mesh::CORNER_COLUMNS;
    link_splits::split_links(
        v,
        before,
        t,
        3,
        mesh::PARTICLES,
        mesh::TRIANGLES,
        rows,
        &numbers[..n],
        &groups[..n],
        corners,
        links,
    );
    rewire::fans::rewire_triangles(v, before, n, numbers, groups, corners);
}

// Puts the copies of the groups for v in the elements of the fan, triangles or straps. There are t triangles and e edges.
fn rewire_elements(
    kind: Kind,
    v: usize,
    before: usize,
    t: usize,
    e: usize,
    n: usize,
    numbers: &[usize],
    groups: &[usize],
    corners: &mut [usize],
    ends: &mut [usize],
    links: &mut [u16],
)
    requires { ElementsIn (kind_is kind) v before t e n numbers groups corners ends links }
    ensures { ElementsRewired (kind_is kind) v before n numbers.now groups.now corners.old
        corners.new ends.old ends.new × FrontBehind (kind_is kind) t e corners ends links }
{
    match kind {
        Kind::Triangles => {
            rewire_linked(
                v,
                before,
                t,
                n,
                numbers,
                groups,
                corners,
                &mut links[..links::EDGES_FROM],
            );
        }
        Kind::Straps => {
            rewire::linked::rewire_straps(
                v,
                before,
                n,
                e,
                numbers,
                groups,
                ends,
                &mut links[links::EDGES_FROM..links::SIDES_FROM],
            );
        }
        Kind::Nothing => {}
    }
}

// Gives v the mass of group 0, and appends the copies of the other groups with theirs.
fn share_out(
    v: usize,
    before: usize,
    n: usize,
    count: usize,
    groups: &[usize],
    measures: &[f32],
    points: &mut [f32],
    roots: &mut [usize],
)
    requires { ShareRoom v before n count (length groups.now) (length measures.now) (length points.old) (length roots.old) }
    ensures { SharedOut v before n count groups.now measures.now points.old points.new
        roots.old roots.new }
{
    let total = split_plan::total_weight(n, count, groups, measures);
    copies::particles::copy_particles(v, before, count, n, total, groups, measures, points, roots);
}

// Parts 1 to 3 of a split of v by the groups of its fan: after them the edges are at their longest. The list is lent for the edges at v.
pub fn grow(
    kind: Kind,
    v: usize,
    n: usize,
    count: usize,
    numbers: &[usize],
    verts: &[usize],
    measures: &[f32],
    groups: &[usize],
    k: Counts,
    room: Rooms,
    points: &mut [f32],
    roots: &mut [usize],
    corners: &mut [usize],
    ends: &mut [usize],
    lengths: &mut [f32],
    list: &mut [usize],
    links: &mut [u16],
) -> Grew
    requires { GrowIn (kind_is kind) room k v n count numbers verts measures groups points roots corners ends lengths list links }
    ensures { GrewIn (kind_is kind) room k v n count numbers verts measures groups points roots corners ends lengths links result }
{
    let before = k.particles;
    if room.particles - before < count - 1 {
        return Err(Refusal::Particles);
    }
    let t = k.triangles;
    let e = k.edges;
    rewire_elements(
        kind, v, before, t, e, n, numbers, groups, corners, ends, links,
    );
    let per = elements::corners_per(kind);
    let grown = rewire::linked::other_edges(
        kind,
        v,
        before,
        per,
        n,
        count,
        before,
        e,
        room.edges,
        verts,
        groups,
        points,
        ends,
        lengths,
        &mut links[links::EDGES_FROM..links::SIDES_FROM],
        list,
    );
    let Some(m) = grown else {
        return Err(Refusal::Edges);
    };
    share_out(v, before, n, count, groups, measures, points, roots);
    Ok(m)
}

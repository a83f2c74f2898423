// The straddlers across pieces: edges that are no elements, and boundary entries, that join two pieces go.
ghost use Rattle.std.specs.Prelude.{◌≡◌, ◌<◌, ◌≤◌, length};
ghost use Rattle.lists.specs.Lists.{pick};
ghost use Rattle.model.specs.Pieces.{remove_straddlers_of};
ghost use Rattle.mesh.specs.At.{triangles_at, edges_at};
ghost use Rattle.elements.specs.Table.{kind_is, elements_in};
ghost use Rattle.work.specs.Places.{CornersIn, EndsIn, SidesIn};
ghost use Rattle.straddlers.specs.Straddling.{spans_by, PiecesRoom, PiecesTold, EdgeReads, EdgeTold, EdgeMaskRoom, EdgesMarked, SideMaskRoom, SidesMarked};
ghost use Rattle.work.specs.Blocks.{SettleRoomIn, WorksBesideIn};

use elements::Kind;
use mesh::{Counts, Rooms};
use work::Ran;

// Fills the tables of pieces of all elements: the lowest particle of each particle's piece, and a mark at each particle that an element holds.
fn find_pieces(
    kind: Kind,
    t: usize,
    e: usize,
    corners: &[usize],
    volumes: &[f32],
    ends: &[usize],
    lengths: &[f32],
    parent: &mut [usize],
    used: &mut [usize],
)
    requires { PiecesRoom t e corners.now (length volumes.now) ends.now (length lengths.now) (length parent.old)
        (length used.old) }
    ensures { PiecesTold (elements_in (kind_is kind) (triangles_at t corners.now volumes.now)
        (edges_at e ends.now lengths.now)) parent.new used.new }
{
    let mut numbers = [0usize; mesh::ELEMENTS];
    let mut verts = [0usize; mesh::ELEMENT_CORNERS];
    let mut measures = [0.0f32; mesh::ELEMENTS];
    let n = elements::element_table(
        kind,
        t,
        e,
        corners,
        volumes,
        ends,
        lengths,
        &mut numbers,
        &mut verts,
        &mut measures,
    );
    let k = elements::corners_per(kind);
    bodies::join_elements(n, k, &verts, parent);
    bodies::mark_used(n, k, &verts, used);
}

// Do x and y lie in different pieces? Most have one root: that is asked first.
fn apart(x: usize, y: usize, parent: &[usize], used: &[usize]) -> bool
    requires { (x < length parent.now) × (y < length parent.now) × (length parent.now ≤ length used.now) }
    ensures { result ≡ spans_by parent.now used.now x y }
{
    if parent[x] == parent[y] {
        return false;
    }
    if used[x] != 1 {
        return false;
    }
    used[y] == 1
}

// 1 if t, else 0.
fn mark(t: bool) -> usize
    ensures { result ≡ pick t 1 0 }
{
    if t { 1 } else { 0 }
}

// Is edge i no element, and do its ends lie in different pieces?
fn edge_crosses(kind: Kind, i: usize, parent: &[usize], used: &[usize], ends: &[usize]) -> bool
    requires { EdgeReads i (length parent.now) (length used.now) ends.now }
    ensures { EdgeTold (kind_is kind) i parent.now used.now ends.now result }
{
    let c = ends.len() / mesh::END_COLUMNS;
    let a = ends[i];
    let b = ends[c + i];
    if elements::is_element(kind, ends[2 * c + i]) {
        return false;
    }
    apart(a, b, parent, used)
}

// Marks the edges among the first n that join two pieces with 1, the others with 0; returns how many do.
fn mark_edges(
    kind: Kind,
    n: usize,
    parent: &[usize],
    used: &[usize],
    ends: &[usize],
    mask: &mut [usize],
) -> usize
    requires { EdgeMaskRoom n (length parent.now) (length used.now) ends.now (length mask.old) }
    ensures { EdgesMarked (kind_is kind) n parent.now used.now ends.now mask.new result }
{
    let mut count: usize = 0;
    for i in 0..n {
        let m = mark(edge_crosses(kind, i, parent, used, ends));
        mask[i] = m;
        count += m;
    }
    count
}

// Marks the boundary entries among the first n that join two pieces with 1, the others with 0.
fn mark_sides(n: usize, parent: &[usize], used: &[usize], outline: &[usize], mask: &mut [usize])
    requires { SideMaskRoom n (length parent.now) (length used.now) outline.now (length mask.old) }
    ensures { SidesMarked n parent.now used.now outline.now mask.new }
{
    let c = outline.len() / mesh::SIDE_COLUMNS;
    for i in 0..n {
        mask[i] = mark(apart(outline[i], outline[c + i], parent, used));
    }
}

// The edges that are no elements, and the boundary entries, that join two pieces go; the edges are noted in the log.
pub fn remove_straddlers(
    kind: Kind,
    k: Counts,
    room: Rooms,
    corners: &[usize],
    volumes: &[f32],
    ends: &mut [usize],
    lengths: &mut [f32],
    outline: &mut [usize],
    log: &mut [u32],
) -> Ran
    requires { SettleRoomIn room k corners volumes ends lengths outline log × CornersIn k.particles k.triangles corners.now
        × EndsIn k.particles k.edges ends.old × SidesIn k.particles k.boundary outline.old }
    ensures { WorksBesideIn (remove_straddlers_of (kind_is kind)) room k corners volumes ends lengths outline log result }
{
    if let Kind::Nothing = kind {
        return Ok(k);
    }
    let mut parent = [0usize; mesh::PARTICLES];
    let mut used = [0usize; mesh::PARTICLES];
    find_pieces(
        kind,
        k.triangles,
        k.edges,
        corners,
        volumes,
        ends,
        lengths,
        &mut parent,
        &mut used,
    );
    let mut edge_mask = [0usize; mesh::EDGES];
    let mut side_mask = [0usize; mesh::BOUNDARY];
    let s = mark_edges(kind, k.edges, &parent, &used, ends, &mut edge_mask);
    mark_sides(k.boundary, &parent, &used, outline, &mut side_mask);
    work::removal::remove_marked(
        k, room, s, &edge_mask, &side_mask, ends, lengths, outline, log,
    )
}

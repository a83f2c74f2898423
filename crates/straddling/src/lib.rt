// Straddlers: edges between two neighbours of v with no common group, which no element holds. They are listed, rising.
#![tactic(auto)]

ghost use Rattle.std.specs.Prelude.{◌≡◌, ◌<◌, ◌≤◌, length};
ghost use Rattle.lists.specs.Lists.{stands};
ghost use Rattle.elements.specs.Table.{kind_is};
ghost use Rattle.links.specs.Linked.{Linked, EdgesLinked};
ghost use Rattle.work.specs.Places.{EndsIn};
ghost use Rattle.straddling.specs.Tests.{copies_by, StraddleRoom, NearMarked, NearRoom, StraddleTold, StraddlersListed};
ghost use Rattle.straddling.specs.Listing.{ListRoom, EdgeListed, EdgesListed, WalkTold};
ghost use Rattle.mesh.specs.Limits.{particle_limit};

use elements::Kind;

pub mod held;
pub mod rising;

// The split whose straddlers are looked for: of particle v among elements of a kind, whose fan has n parts in `count` groups; there were `before` particles before its copies.
#[derive(Clone, Copy)]
pub struct Split {
    kind: Kind,
    v: usize,
    before: usize,
    n: usize,
    count: usize,
}

// Is w v or one of its copies?
pub fn is_copy(w: usize, v: usize, before: usize, count: usize) -> bool
    ensures { result ≡ stands w (copies_by v before count) }
{
    if w == v {
        return true;
    }
    if w < before {
        return false;
    }
    if count == 0 {
        return false;
    }
    w - before < count - 1
}

// Does edge i straddle?
fn straddles(
    kind: Kind,
    i: usize,
    v: usize,
    before: usize,
    n: usize,
    count: usize,
    t: usize,
    e: usize,
    verts: &[usize],
    groups: &[usize],
    corners: &[usize],
    ends: &[usize],
    links: &[u16],
    table: &[u16],
) -> bool
    requires { let K = kind_is kind in StraddleRoom K n t e (length verts.now) (length groups.now) (length corners.now)
        (length ends.now) × (i < e) × EndsIn particle_limit e ends.now × Linked K t corners.now links.now
        × EdgesLinked e ends.now table.now }
    ensures { StraddleTold (kind_is kind) i v before n count t e verts.now groups.now corners.now
        ends.now result }
{
    let c = ends.len() / mesh::END_COLUMNS;
    let a = ends[i];
    let b = ends[c + i];
    if elements::is_element(kind, ends[2 * c + i]) {
        return false;
    }
    if is_copy(a, v, before, count) {
        return false;
    }
    if is_copy(b, v, before, count) {
        return false;
    }
    let k = elements::corners_per(kind);
    if !split_plan::parted(a, b, n, k, verts, groups) {
        return false;
    }
    !crate::held::held(kind, a, b, t, e, corners, ends, links, table)
}

// Marks the first m corners of a fan in a table of the particles: they are near v.
fn mark_corners(m: usize, verts: &[usize], near: &mut [u8])
    requires { m ≤ length verts.now }
    ensures { NearMarked m verts.now near.new }
{
    for i in 0..m {
        let x = verts[i];
        if x < near.len() {
            near[x] = 1;
        }
    }
}

// Does edge i straddle, where the corners of the fan are marked as near? Both ends of a straddler are; most edges are not, and nothing but their ends is read of those.
fn near_straddles(
    kind: Kind,
    i: usize,
    v: usize,
    before: usize,
    n: usize,
    count: usize,
    t: usize,
    e: usize,
    verts: &[usize],
    groups: &[usize],
    corners: &[usize],
    ends: &[usize],
    links: &[u16],
    table: &[u16],
    near: &[u8],
) -> bool
    requires { let K = kind_is kind in StraddleRoom K n t e (length verts.now) (length groups.now) (length corners.now)
        (length ends.now) × (i < e) × NearRoom K n e verts.now ends.now near.now × Linked K t corners.now links.now
        × EdgesLinked e ends.now table.now }
    ensures { StraddleTold (kind_is kind) i v before n count t e verts.now groups.now corners.now
        ends.now result }
{
    let c = ends.len() / mesh::END_COLUMNS;
    let a = ends[i];
    let b = ends[c + i];
    if near[a] != 1 {
        return false;
    }
    if near[b] != 1 {
        return false;
    }
    straddles(
        kind, i, v, before, n, count, t, e, verts, groups, corners, ends, links, table,
    )
}

// Puts edge i of the first e into the list of r straddlers if x is its first end and it straddles; returns how many are listed.
fn list_edge(
    x: usize,
    i: usize,
    r: usize,
    of: Split,
    t: usize,
    e: usize,
    verts: &[usize],
    groups: &[usize],
    corners: &[usize],
    ends: &[usize],
    links: &[u16],
    table: &[u16],
    near: &[u8],
    list: &mut [usize],
) -> usize
    requires { ListRoom (kind_is of.kind) of.v of.before of.n of.count t e verts.now groups.now corners.now ends.now
        links.now near.now list.old r × (i < e) × EdgesLinked e ends.now table.now }
    ensures { EdgeListed (kind_is of.kind) of.v of.before of.n of.count t e verts.now groups.now
        corners.now ends.now x i list.old r list.new result }
{
    if ends[i] != x {
        return r;
    }
    let kind = of.kind;
    if !near_straddles(
        kind, i, of.v, of.before, of.n, of.count, t, e, verts, groups, corners, ends, links, table,
        near,
    ) {
        return r;
    }
    crate::rising::put_rising(i, r, list)
}

// Lists the straddlers whose first end is x, which the table of the edges has at x, beside the r that are there. None ends at v, and what is no particle has no edge.
fn list_edges_at(
    x: usize,
    r: usize,
    of: Split,
    t: usize,
    e: usize,
    verts: &[usize],
    groups: &[usize],
    corners: &[usize],
    ends: &[usize],
    links: &[u16],
    table: &[u16],
    near: &[u8],
    list: &mut [usize],
) -> usize
    requires { ListRoom (kind_is of.kind) of.v of.before of.n of.count t e verts.now groups.now corners.now ends.now
        links.now near.now list.old r × EdgesLinked e ends.now table.now }
    ensures { EdgesListed (kind_is of.kind) of.v of.before of.n of.count t e verts.now groups.now
        corners.now ends.now x list.old r list.new result }
{
    if x == of.v {
        return r;
    }
    if x >= mesh::PARTICLES {
        return r;
    }
    let rows = ends.len() / mesh::END_COLUMNS;
    let mut listed = r;
    let mut at = links::first_at(x, table);
    // A chain: each place tells the next, so there is no range to go over.
    while at > 0 {
        let i = at - 1;
        listed = list_edge(
            x, i, listed, of, t, e, verts, groups, corners, ends, links, table, near, list,
        );
        at = links::next_at(x, i, 2, mesh::PARTICLES, mesh::EDGES, rows, ends, table);
    }
    listed
}

// Were the edges at x walked before? If not, they are to be walked now, and it is marked so. What has no place in the table counts as walked.
pub fn is_walked(x: usize, walked: &mut [u8]) -> bool
    ensures { WalkTold x walked.old walked.new result }
{
    if x >= walked.len() {
        return true;
    }
    if walked[x] == 1 {
        return true;
    }
    walked[x] = 1;
    false
}

// Lists the straddlers among the first e edges, rising, in the front of the list; returns how many there are. The one table links the t triangles, the other the e edges.
// Both ends of a straddler are corners of the fan, so the edges at these are walked, and no others; a particle is a corner of several parts, so an edge may be met again.
pub fn list_straddlers(
    kind: Kind,
    v: usize,
    before: usize,
    n: usize,
    count: usize,
    t: usize,
    e: usize,
    verts: &[usize],
    groups: &[usize],
    corners: &[usize],
    ends: &[usize],
    links: &[u16],
    table: &[u16],
    list: &mut [usize],
) -> usize
    requires { let K = kind_is kind in StraddleRoom K n t e (length verts.now) (length groups.now) (length corners.now)
        (length ends.now) × (e ≤ length list.old) × EndsIn particle_limit e ends.now × Linked K t corners.now links.now
        × EdgesLinked e ends.now table.now }
    ensures { StraddlersListed (kind_is kind) v before n count t e verts.now groups.now corners.now
        ends.now list.new result }
{
    let mut near = [0u8; mesh::PARTICLES];
    let m = n * elements::corners_per(kind);
    mark_corners(m, verts, &mut near);
    let of = Split {
        kind,
        v,
        before,
        n,
        count,
    };
    let mut walked = [0u8; mesh::PARTICLES];
    let mut listed: usize = 0;
    for q in 0..m {
        if is_walked(verts[q], &mut walked) {
            continue;
        }
        listed = list_edges_at(
            verts[q], listed, of, t, e, verts, groups, corners, ends, links, table, &near, list,
        );
    }
    listed
}

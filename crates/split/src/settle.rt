// The second half of a split: straddlers are listed, the boundary follows, crack facets join it, and the log tells of it.
ghost use Rattle.std.specs.Prelude.{◌≡◌, ◌+◌, ◌/◌, ◌<◌, ◌≤◌, length, leb};
ghost use Rattle.elements.specs.Table.{kind_is};
ghost use Rattle.boundary.specs.Faces.{GrownLinked};
ghost use Rattle.split.specs.Settling.{FacetsAsked, FacetsTold, CopiesNoted, SplitAsked, SplitNoted, PartAsked, PartedFor, RowsAfter};
ghost use Rattle.split.specs.Linking.{FacetsLinked};
ghost use Rattle.split.specs.Blocks.{ListIn, FrontIn, OpenIn, OpenedIn, SettleIn, SettledIn};
ghost use Rattle.mesh.specs.Widths.{entry_words};

use elements::Kind;
use mesh::refusals::Refusal;
use mesh::{Counts, Rooms};
use work::Ran;

// Where the elements are triangles, appends the crack facets to the b entries of the outline, and to their table.
fn open_facets(
    kind: Kind,
    v: usize,
    before: usize,
    n: usize,
    count: usize,
    b: usize,
    room: usize,
    numbers: &[usize],
    verts: &[usize],
    groups: &[usize],
    corners: &[usize],
    outline: &mut [usize],
    table: &mut [u16],
) -> Option<usize>
    requires { let K = kind_is kind in FacetsAsked K before n count b room numbers.now (length verts.now) (length groups.now)
        (length corners.now) (length outline.old) × FacetsLinked K n b room numbers.now corners.now outline.old table.old }
    ensures { FacetsTold (kind_is kind) v before n count b room numbers.now verts.now groups.now
        corners.now outline.old outline.new result × GrownLinked result outline.new table.new }
{
    match kind {
        Kind::Triangles => boundary::facets::crack_facets(
            v, before, n, count, b, room, numbers, verts, groups, corners, outline, table,
        ),
        Kind::Straps => Some(b),
        Kind::Nothing => Some(b),
    }
}

// The b entries of the outline follow their groups, and the crack facets are appended; the table is kept true. The list is lent for the entries at v.
fn open_boundary(
    kind: Kind,
    v: usize,
    before: usize,
    n: usize,
    count: usize,
    b: usize,
    room: usize,
    numbers: &[usize],
    verts: &[usize],
    groups: &[usize],
    points: &[f32],
    corners: &[usize],
    outline: &mut [usize],
    table: &mut [u16],
    list: &mut [usize],
) -> Option<usize>
    requires { OpenIn (kind_is kind) v before n count b room numbers verts groups points corners outline table list }
    ensures { OpenedIn (kind_is kind) v before n count b room numbers verts groups points corners outline table result }
{
    let k = elements::corners_per(kind);
    boundary::entries::follow_boundary(
        v, before, k, n, count, before, b, verts, groups, points, outline, table, list,
    );
    open_facets(
        kind, v, before, n, count, b, room, numbers, verts, groups, corners, outline, table,
    )
}

// Do m copies, s removed edges and the entries to come fit?
fn log_fits(free: usize, m: usize, s: usize, extra: usize) -> bool
    requires { m + extra ≤ 65536 }
    ensures { result ≡ leb (m + s + extra) free }
{
    if free < s {
        return false;
    }
    m + extra <= free - s
}

// Notes m copies of v, which were appended to `before` particles, behind the entries.
fn note_copies(v: usize, before: usize, m: usize, at: usize, log: &mut [u32])
    requires { (before + m ≤ 65536) × (at + m ≤ length log.old / entry_words) × (v < before) }
    ensures { CopiesNoted v before m at log.old log.new }
{
    for i in 0..m {
        work::notes::note(at + i, 1, (before + i) as u32, v as u32, 0, 0, 0, log);
    }
}

// Notes m copies of v and then the s listed edges; returns how many entries there are.
fn note_split(
    v: usize,
    before: usize,
    m: usize,
    at: usize,
    s: usize,
    list: &[usize],
    ends: &[usize],
    log: &mut [u32],
) -> usize
    requires { SplitAsked v before m at s list.now ends.now (length log.old) }
    ensures { SplitNoted v before m at s list.now ends.now log.old log.new result }
{
    note_copies(v, before, m, at, log);
    work::removal::note_listed(list, s, at + m, ends, log)
}

// The straddlers are listed, and the log tells of the split, if it has room for that and for `extra` entries more; `rows` boundary entries are there by now. They stay in the block, and the counts are those without them.
fn part_straddlers(
    kind: Kind,
    v: usize,
    before: usize,
    n: usize,
    count: usize,
    extra: usize,
    rows: usize,
    k: Counts,
    room: Rooms,
    verts: &[usize],
    groups: &[usize],
    corners: &[usize],
    ends: &[usize],
    log: &mut [u32],
    list: &mut [usize],
    links: &[u16],
) -> Ran
    requires { PartAsked (kind_is kind) room k v before n count extra (length verts.now) (length groups.now) (length corners.now)
        ends.now (length log.old) × ListIn list × FrontIn (kind_is kind) k corners ends links }
    ensures { PartedFor (kind_is kind) room k v before n count extra rows verts.now groups.now
        corners.now ends.now list.new log.old log.new result
        × RowsAfter k rows (length ends.now) list.new result }
{
    let s = straddling::list_straddlers(
        kind,
        v,
        before,
        n,
        count,
        k.triangles,
        k.edges,
        verts,
        groups,
        corners,
        ends,
        links,
        &links[links::EDGES_FROM..],
        list,
    );
    let m = count - 1;
    if !log_fits(room.log - k.log, m, s, extra) {
        return Err(Refusal::Entries);
    }
    let entries = note_split(v, before, m, k.log, s, list, ends, log);
    list[edge_drops::LISTED] = s;
    Ok(Counts {
        particles: k.particles,
        triangles: k.triangles,
        edges: k.edges - s,
        boundary: rows,
        log: entries,
    })
}

// Parts 4 to 6 of a split and its log, on a mesh whose edges are at their longest and which the tables link, with `extra` entries to come.
pub fn settle(
    kind: Kind,
    v: usize,
    before: usize,
    n: usize,
    count: usize,
    extra: usize,
    numbers: &[usize],
    verts: &[usize],
    groups: &[usize],
    k: Counts,
    room: Rooms,
    points: &[f32],
    corners: &[usize],
    volumes: &[f32],
    ends: &[usize],
    lengths: &[f32],
    outline: &mut [usize],
    log: &mut [u32],
    list: &mut [usize],
    links: &mut [u16],
) -> Ran
    requires { SettleIn (kind_is kind) room k v before n count extra numbers verts groups points corners volumes ends lengths outline log
        list links }
    ensures { SettledIn (kind_is kind) room extra v before n count k numbers verts groups points corners volumes ends lengths outline
        log list links result }
{
    let grown = open_boundary(
        kind,
        v,
        before,
        n,
        count,
        k.boundary,
        room.boundary,
        numbers,
        verts,
        groups,
        points,
        corners,
        outline,
        &mut links[links::SIDES_FROM..],
        list,
    );
    let Some(rows) = grown else {
        return Err(Refusal::Boundary);
    };
    part_straddlers(
        kind, v, before, n, count, extra, rows, k, room, verts, groups, corners, ends, log, list,
        links,
    )
}

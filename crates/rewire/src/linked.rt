// The straps of a fan, and the other edges at v, which the table of the edges at each particle finds: the table is kept true.
ghost use Rattle.std.specs.Prelude.{◌≡◌, [], ◌∷◌, ◌++◌, ◌+◌, ◌<◌, ◌≤◌, ◌/◌, length};
ghost use Rattle.elements.specs.Table.{kind_is};
ghost use Rattle.mesh.specs.At.{edges_at};
ghost use Rattle.mesh.specs.Workers.{edge_of};
ghost use Rattle.links.specs.Linked.{EdgesLinked};
ghost use Rattle.rewire.specs.Stages.{StrapsRewired, EdgesGrown};
ghost use Rattle.copies.specs.Ends.{EndsMoved};
ghost use Rattle.rewire.specs.Edges.{CopyRoom, CopiesGrown, SettleRoom, EdgeSettled, EdgesRoom, TableRoom, LinkedGrown, EndRoom, StrapsRoom, EndsBelow, PushRoom};

use elements::Kind;
use mesh::EdgeRow;

// Puts w for v in the ends of edge i, of m, in the table and in the block.
fn move_end(i: usize, v: usize, w: usize, m: usize, ends: &mut [usize], table: &mut [u16])
    requires { EndRoom i v w m ends.old table.old }
    ensures { EndsMoved i v w ends.old ends.new × EdgesLinked m ends.new table.new }
{
    if w == v {
        return;
    }
    let span = ends.len() / mesh::END_COLUMNS;
    let c = links::corner_at(v, i, 2, span, ends);
    link_changes::move_corner(
        i,
        c,
        w,
        m,
        2,
        mesh::PARTICLES,
        mesh::EDGES,
        span,
        ends,
        table,
    );
    copies::edges::move_ends(i, v, w, ends);
}

// Puts the copies of the groups for v at the ends of the fan's straps, of the first e edges.
pub fn rewire_straps(
    v: usize,
    before: usize,
    n: usize,
    e: usize,
    numbers: &[usize],
    groups: &[usize],
    ends: &mut [usize],
    table: &mut [u16],
)
    requires { StrapsRoom v before n e numbers.now groups.now ends.old table.old }
    ensures { StrapsRewired v before n numbers.now groups.now ends.old ends.new
        × EdgesLinked e ends.new table.new }
{
    for i in 0..n {
        let strap = numbers[i];
        let w = mesh::rows::copy_for(v, before, groups[i]);
        move_end(strap, v, w, e, ends, table);
    }
}

// Appends an edge behind the first n, to the block and to the table.
fn push_edge(n: usize, row: EdgeRow, ends: &mut [usize], lengths: &mut [f32], table: &mut [u16])
    requires { PushRoom n (edge_of row) ends.old (length lengths.old) table.old }
    ensures { (edges_at (n + 1) ends.new lengths.new
        ≡ edges_at n ends.old lengths.old ++ (edge_of row ∷ []))
        × EdgesLinked (n + 1) ends.new table.new }
{
    mesh::rows::append_edge(n, row, ends, lengths);
    let span = ends.len() / mesh::END_COLUMNS;
    link_changes::append_cell(n, 2, mesh::PARTICLES, mesh::EDGES, span, ends, table);
}

// Appends a copy of an edge for each group from `from` on that holds x: how many edges there are then, or None where there is no room.
fn append_copies(
    row: EdgeRow,
    x: usize,
    from: usize,
    v: usize,
    before: usize,
    k: usize,
    n: usize,
    count: usize,
    m: usize,
    room: usize,
    verts: &[usize],
    groups: &[usize],
    ends: &mut [usize],
    lengths: &mut [f32],
    table: &mut [u16],
) -> Option<usize>
    requires { CopyRoom before k n count m room (length verts.now) (length groups.now) (length ends.old) (length lengths.old) ×
        (from ≤ count) × TableRoom before count before m room ends.old table.old × EndsBelow before (edge_of row) }
    ensures { CopiesGrown (edge_of row) x from v before k n count m room verts.now groups.now
        ends.old ends.new lengths.old lengths.new result
        × LinkedGrown result ends.new table.new }
{
    let mut rows = m;
    let mut g = split_plan::next_group(x, from, count, n, k, verts, groups);
    // The next group that x is in may leave others out, so no range steps by it.
    while g < count {
        if rows == room {
            return None;
        }
        let w = split_plan::copy_number(v, before, count, g);
        let copy = copies::edges::copied(row, v, w);
        push_edge(rows, copy, ends, lengths, table);
        rows += 1;
        g = split_plan::next_group(x, g + 1, count, n, k, verts, groups);
    }
    Some(rows)
}

// Edge i stays in the lowest of its groups, and its copies are appended.
fn settle_edge(
    kind: Kind,
    i: usize,
    v: usize,
    before: usize,
    k: usize,
    n: usize,
    count: usize,
    p: usize,
    m: usize,
    room: usize,
    verts: &[usize],
    groups: &[usize],
    points: &[f32],
    ends: &mut [usize],
    lengths: &mut [f32],
    table: &mut [u16],
) -> Option<usize>
    requires { SettleRoom (kind_is kind) i v before k n count p m room verts.now groups.now (length points.now) ends.old
        lengths.old × TableRoom before count p m room ends.old table.old }
    ensures { EdgeSettled (kind_is kind) i v before k n count p m room verts.now groups.now
        points.now ends.old ends.new lengths.old lengths.new result
        × LinkedGrown result ends.new table.new }
{
    let row = copies::edges::edge_at(i, ends, lengths);
    if !copies::edges::is_other(kind, v, row) {
        return Some(m);
    }
    let x = copies::edges::far_end(v, row);
    let first = split_plan::next_group(x, 0, count, n, k, verts, groups);
    if first < count {
        let w = split_plan::copy_number(v, before, count, first);
        move_end(i, v, w, m, ends, table);
        return append_copies(
            row,
            x,
            first + 1,
            v,
            before,
            k,
            n,
            count,
            m,
            room,
            verts,
            groups,
            ends,
            lengths,
            table,
        );
    }
    let toward = split_plan::group_toward(x, v, n, k, verts, groups, points);
    let w = split_plan::copy_number(v, before, count, toward);
    move_end(i, v, w, m, ends, table);
    Some(m)
}

// Each other edge of the first e stays in the lowest of its groups; the copies for the further groups are appended.
// The edges at v are listed first: what is appended behind them or moved is none that is to come.
// How many edges there are then, or None where there is no room.
pub fn other_edges(
    kind: Kind,
    v: usize,
    before: usize,
    k: usize,
    n: usize,
    count: usize,
    p: usize,
    e: usize,
    room: usize,
    verts: &[usize],
    groups: &[usize],
    points: &[f32],
    ends: &mut [usize],
    lengths: &mut [f32],
    table: &mut [u16],
    list: &mut [usize],
) -> Option<usize>
    requires { EdgesRoom (kind_is kind) v before k n count p e room verts.now groups.now (length points.now) ends.old
        lengths.old × TableRoom before count p e room ends.old table.old × (e ≤ length list.old) }
    ensures { EdgesGrown (kind_is kind) v before k n count p e room verts.now groups.now
        points.now ends.old ends.new lengths.old lengths.new result
        × LinkedGrown result ends.new table.new }
{
    let span = ends.len() / mesh::END_COLUMNS;
    let named = links::cells_at(
        v,
        e,
        2,
        mesh::PARTICLES,
        mesh::EDGES,
        span,
        ends,
        table,
        list,
    );
    let mut rows = e;
    for q in 0..named {
        rows = settle_edge(
            kind, list[q], v, before, k, n, count, p, rows, room, verts, groups, points, ends,
            lengths, table,
        )?;
    }
    Some(rows)
}

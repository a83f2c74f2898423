// The bend edges over a strap: from its first end's side alone to its second end's side alone, either way.
ghost use Rattle.std.specs.Prelude.{◌≡◌, not, ◌&&◌, ◌<◌, ◌≤◌, ◌/◌, length, get_or};
ghost use Rattle.crossing.specs.Bends.{FarIs, NeighbourIs, SideRoom, SideMarked, only_by, BendRoom, BendTold, MarkRoom, BendsAt, BetweenMarked, BendsRoom, BendsMarked};
ghost use Rattle.links.specs.Linked.{EdgesLinked};
ghost use Rattle.mesh.specs.Widths.{end_columns};

use insert::shares;

// The end of edge i that isn't v.
fn far_end(v: usize, i: usize, ends: &[usize]) -> usize
    requires { i < length ends.now / end_columns }
    ensures { FarIs v i ends.now result }
{
    let c = ends.len() / mesh::END_COLUMNS;
    if ends[i] == v {
        return ends[c + i];
    }
    ends[i]
}

// The end of strap i at v that isn't v, unless it is w; else v.
fn neighbour(v: usize, w: usize, i: usize, ends: &[usize]) -> usize
    requires { i < length ends.now / end_columns }
    ensures { NeighbourIs v w i ends.now result }
{
    if shares::strap_at(v, i, ends) {
        let x = far_end(v, i, ends);
        if x != w {
            return x;
        }
    }
    v
}

// Marks v and its neighbours along the first e edges' straps, but w. They are met along the table of the edges. Nothing is marked before.
fn mark_side(v: usize, w: usize, e: usize, ends: &[usize], side: &mut [u8], table: &[u16])
    requires { SideRoom v e ends.now side.old table.now }
    ensures { SideMarked v w e ends.now side.new }
{
    let rows = ends.len() / mesh::END_COLUMNS;
    side[v] = 1;
    let mut at = links::first_at(v, table);
    // A chain: each place tells the next, so there is no range to go over.
    while at > 0 {
        let i = at - 1;
        let x = neighbour(v, w, i, ends);
        side[x] = 1;
        at = links::next_at(v, i, 2, mesh::PARTICLES, mesh::EDGES, rows, ends, table);
    }
}

// Is w marked in the first table, and not in the second?
fn only(w: usize, first: &[u8], second: &[u8]) -> bool
    requires { (w < length first.now) × (w < length second.now) }
    ensures { result ≡ only_by first.now second.now w }
{
    if first[w] == 1 {
        return second[w] != 1;
    }
    false
}

// Is edge i a bend edge between the two sides?
fn bend(i: usize, ends: &[usize], first: &[u8], second: &[u8]) -> bool
    requires { BendRoom i ends.now (length first.now) (length second.now) }
    ensures { BendTold i ends.now first.now second.now result }
{
    let c = ends.len() / mesh::END_COLUMNS;
    if ends[2 * c + i] == 1 {
        return false;
    }
    let a = ends[i];
    let b = ends[c + i];
    if only(a, first, second) {
        return only(b, second, first);
    }
    if only(a, second, first) {
        return only(b, first, second);
    }
    false
}

// Marks the bend edges between the two sides among the first e that have an end at x.
fn mark_at(
    x: usize,
    e: usize,
    ends: &[usize],
    first: &[u8],
    second: &[u8],
    marks: &mut [usize],
    table: &[u16],
)
    requires { MarkRoom x e ends.now (length first.now) (length second.now) (length marks.old) table.now }
    ensures { BendsAt x e ends.now first.now second.now marks.old
        marks.new }
{
    let rows = ends.len() / mesh::END_COLUMNS;
    let mut at = links::first_at(x, table);
    // A chain: each place tells the next, so there is no range to go over.
    while at > 0 {
        let i = at - 1;
        if bend(i, ends, first, second) {
            marks[i] = 1;
        }
        at = links::next_at(x, i, 2, mesh::PARTICLES, mesh::EDGES, rows, ends, table);
    }
}

// Marks the bend edges between the two sides among the first e. Each has an end in the first side, so it is met at v or at a neighbour of v. Several straps may lead to one neighbour, and its edges are walked once.
fn mark_between(
    v: usize,
    w: usize,
    e: usize,
    ends: &[usize],
    first: &[u8],
    second: &[u8],
    marks: &mut [usize],
    table: &[u16],
)
    requires { MarkRoom v e ends.now (length first.now) (length second.now) (length marks.old) table.now
        × SideMarked v w e ends.now first.now }
    ensures { BetweenMarked e ends.now first.now second.now marks.old
        marks.new }
{
    let rows = ends.len() / mesh::END_COLUMNS;
    let mut walked = [0u8; mesh::PARTICLES];
    walked[v] = 1;
    mark_at(v, e, ends, first, second, marks, table);
    let mut at = links::first_at(v, table);
    // A chain: each place tells the next, so there is no range to go over.
    while at > 0 {
        let i = at - 1;
        let x = neighbour(v, w, i, ends);
        if !straddling::is_walked(x, &mut walked) {
            mark_at(x, e, ends, first, second, marks, table);
        }
        at = links::next_at(v, i, 2, mesh::PARTICLES, mesh::EDGES, rows, ends, table);
    }
}

// Marks the bend edges over the strap (a, b) among the first e edges. Its sides are marked in two tables of the particles.
pub fn mark_bends(a: usize, b: usize, e: usize, ends: &[usize], marks: &mut [usize], table: &[u16])
    requires { BendsRoom a b e ends.now (length marks.old) × EdgesLinked e ends.now table.now }
    ensures { BendsMarked a b e ends.now marks.old marks.new }
{
    let mut first = [0u8; mesh::PARTICLES];
    let mut second = [0u8; mesh::PARTICLES];
    mark_side(a, b, e, ends, &mut first, table);
    mark_side(b, a, e, ends, &mut second, table);
    mark_between(a, b, e, ends, &first, &second, marks, table);
}

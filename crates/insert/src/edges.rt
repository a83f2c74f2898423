// The strap that is opened: its edge becomes the first half, and the second half is appended.
ghost use Rattle.std.specs.Prelude.{◌≡◌, ◌<◌, ◌≤◌, ◌/◌, ◌+◌, length};
ghost use Rattle.model.specs.Cut.{half_of};
ghost use Rattle.mesh.specs.Workers.{EdgeRoom, edge_of};
ghost use Rattle.links.specs.Linked.{EdgesLinked};
ghost use Rattle.insert.specs.Tables.{StrapLinked, NewEnds};
ghost use Rattle.insert.specs.Inserts.{EdgeStored, EdgesRoom, EdgesInserted};

use crate::plan::Plan;
use mesh::EdgeRow;

// A half of an edge, from a to b: both rest lengths are the whole's times its fraction.
fn half_of(row: EdgeRow, a: usize, b: usize, f: f32) -> EdgeRow
    ensures { edge_of result ≡ half_of (edge_of row) a b f }
{
    EdgeRow {
        a: a,
        b: b,
        structural: row.structural,
        torn: 0,
        rest: row.rest * f,
        initial: row.initial * f,
        impulse: 0.0,
        stress: 0.0,
    }
}

// Puts an edge at place i.
fn store_edge(i: usize, row: EdgeRow, ends: &mut [usize], lengths: &mut [f32])
    requires { EdgeRoom (i + 1) (length ends.old) (length lengths.old) }
    ensures { EdgeStored i (edge_of row) ends.old ends.new lengths.old lengths.new }
{
    let e = ends.len() / mesh::END_COLUMNS;
    let l = lengths.len() / mesh::LENGTH_COLUMNS;
    ends[i] = row.a;
    ends[e + i] = row.b;
    ends[2 * e + i] = row.structural;
    ends[3 * e + i] = row.torn;
    lengths[i] = row.rest;
    lengths[l + i] = row.initial;
    lengths[2 * l + i] = row.impulse;
    lengths[3 * l + i] = row.stress;
}

// The edge (a, b) becomes (a, p), and (q, b) is appended to the e edges, in the blocks and in the table.
pub fn insert_edges(
    plan: Plan,
    e: usize,
    ends: &mut [usize],
    lengths: &mut [f32],
    table: &mut [u16],
)
    requires { EdgesRoom plan e (length ends.old) (length lengths.old) × StrapLinked plan e ends.old table.old
        × NewEnds plan e }
    ensures { EdgesInserted plan e ends.old ends.new lengths.old lengths.new
        × EdgesLinked (e + 1) ends.new table.new }
{
    let row = plan.row;
    let number = plan.number;
    let p = plan.before;
    let first = half_of(row, row.a, p, plan.at);
    let second = half_of(row, p + 1, row.b, 1.0 - plan.at);
    let rows = ends.len() / mesh::END_COLUMNS;
    link_changes::move_corner(
        number,
        1,
        p,
        e,
        2,
        mesh::PARTICLES,
        mesh::EDGES,
        rows,
        ends,
        table,
    );
    store_edge(number, first, ends, lengths);
    mesh::rows::append_edge(e, second, ends, lengths);
    link_changes::append_cell(e, 2, mesh::PARTICLES, mesh::EDGES, rows, ends, table);
}

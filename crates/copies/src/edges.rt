// One edge: read, tested, copied, and an end moved.
ghost use Rattle.std.specs.Prelude.{◌≡◌, not, ◌&&◌, ◌+◌, ◌<◌, ◌/◌, length};
ghost use Rattle.lists.specs.Lists.{stands};
ghost use Rattle.lists.specs.Labels.{replaced};
ghost use Rattle.model.specs.Elements.{element?, ends_of, far_end_of};
ghost use Rattle.model.specs.Split.{moved as moved_of, calm as calm_of};
ghost use Rattle.elements.specs.Table.{kind_is};
ghost use Rattle.mesh.specs.Workers.{EdgeRoom, edge_of, row_at};
ghost use Rattle.mesh.specs.Widths.{end_columns};
ghost use Rattle.copies.specs.Ends.{EndsMoved};

use elements::Kind;
use mesh::EdgeRow;

// w for v.
fn swapped(x: usize, v: usize, w: usize) -> usize
    ensures { result ≡ replaced v w x }
{
    if x == v {
        return w;
    }
    x
}

// Edge i.
pub fn edge_at(i: usize, ends: &[usize], lengths: &[f32]) -> EdgeRow
    requires { EdgeRoom (i + 1) (length ends.now) (length lengths.now) }
    ensures { edge_of result ≡ row_at ends.now lengths.now i }
{
    let e = ends.len() / mesh::END_COLUMNS;
    let l = lengths.len() / mesh::LENGTH_COLUMNS;
    EdgeRow {
        a: ends[i],
        b: ends[e + i],
        structural: ends[2 * e + i],
        torn: ends[3 * e + i],
        rest: lengths[i],
        initial: lengths[l + i],
        impulse: lengths[2 * l + i],
        stress: lengths[3 * l + i],
    }
}

// Does an edge at v go to its groups: it is no element, and names v?
pub fn is_other(kind: Kind, v: usize, row: EdgeRow) -> bool
    ensures { result ≡ (not (element? (kind_is kind) (edge_of row)) && stands v (ends_of (edge_of row))) }
{
    if elements::is_element(kind, row.structural) {
        return false;
    }
    if row.a == v {
        return true;
    }
    row.b == v
}

// The end that isn't v.
pub fn far_end(v: usize, row: EdgeRow) -> usize
    ensures { result ≡ far_end_of v (edge_of row) }
{
    if row.a == v {
        return row.b;
    }
    row.a
}

// A copy of an edge with w for v, impulse 0.
pub fn copied(row: EdgeRow, v: usize, w: usize) -> EdgeRow
    ensures { edge_of result ≡ calm_of (moved_of v w (edge_of row)) }
{
    EdgeRow {
        a: swapped(row.a, v, w),
        b: swapped(row.b, v, w),
        structural: row.structural,
        torn: row.torn,
        rest: row.rest,
        initial: row.initial,
        impulse: 0.0,
        stress: row.stress,
    }
}

// Puts w for v in the ends of edge i.
pub fn move_ends(i: usize, v: usize, w: usize, ends: &mut [usize])
    requires { i < length ends.old / end_columns }
    ensures { EndsMoved i v w ends.old ends.new }
{
    let e = ends.len() / mesh::END_COLUMNS;
    columns::turn_row(i, v, w, 2, e, ends);
}

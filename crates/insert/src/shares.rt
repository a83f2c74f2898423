// The share of an end's mass that a strap has among the straps there.
ghost use Rattle.std.specs.Prelude.{◌≡◌, ◌<◌, ◌/◌, length};
ghost use Rattle.mesh.specs.At.{edges_at};
ghost use Rattle.mesh.specs.Widths.{point_columns, end_columns};
ghost use Rattle.insert.specs.Shares.{StrapTold, total_at_of, share_by};
ghost use Rattle.insert.specs.Tables.{TotalRoom};

// Is edge i structural, with an end at v?
pub fn strap_at(v: usize, i: usize, ends: &[usize]) -> bool
    requires { i < length ends.now / end_columns }
    ensures { StrapTold v i ends.now result }
{
    let c = ends.len() / mesh::END_COLUMNS;
    if ends[2 * c + i] != 1 {
        return false;
    }
    if ends[i] == v {
        return true;
    }
    ends[c + i] == v
}

// The straps at two particles, by their initial lengths added.
#[derive(Clone, Copy)]
pub struct Totals {
    pub first: f32,
    pub second: f32,
}

// The initial lengths of the structural edges at v among the first e, added in edge order: those edges are met along their table.
fn total_at(v: usize, e: usize, ends: &[usize], lengths: &[f32], table: &[u16]) -> f32
    requires { TotalRoom v e ends.now (length lengths.now) table.now }
    ensures { result ≡ total_at_of v (edges_at e ends.now lengths.now) }
{
    let rows = ends.len() / mesh::END_COLUMNS;
    let l = lengths.len() / mesh::LENGTH_COLUMNS;
    let mut s: f32 = 0.0;
    let mut at = links::first_at(v, table);
    // A chain: each place tells the next, so there is no range to go over.
    while at > 0 {
        let i = at - 1;
        if ends[2 * rows + i] == 1 {
            s = s + lengths[l + i];
        }
        at = links::next_at(v, i, 2, mesh::PARTICLES, mesh::EDGES, rows, ends, table);
    }
    s
}

// The same for both ends of a strap.
pub fn strap_totals(
    v: usize,
    w: usize,
    e: usize,
    ends: &[usize],
    lengths: &[f32],
    table: &[u16],
) -> Totals
    requires { TotalRoom v e ends.now (length lengths.now) table.now
        × TotalRoom w e ends.now (length lengths.now) table.now }
    ensures { (result.first ≡ total_at_of v (edges_at e ends.now lengths.now))
        × (result.second ≡ total_at_of w (edges_at e ends.now lengths.now)) }
{
    Totals {
        first: total_at(v, e, ends, lengths, table),
        second: total_at(w, e, ends, lengths, table),
    }
}

// The share of v's mass that a strap of length len has among straps of this length in all.
pub fn share_of(v: usize, len: f32, total: f32, points: &[f32]) -> f32
    requires { v < length points.now / point_columns }
    ensures { result ≡ share_by v len total points.now }
{
    let p = points.len() / mesh::POINT_COLUMNS;
    if 0.0 < total {
        return points[4 * p + v] * len / total;
    }
    0.0
}

// Listed edges go, from the blocks and from the table of the edges at each particle, which is kept true.
#![tactic(auto)]

ghost use Rattle.std.specs.Prelude.{◌≡◌, ◌+◌, ◌-◌, length, take};
ghost use Rattle.lists.specs.LeftOut.{without, left_out};
ghost use Rattle.mesh.specs.At.{edges_at};
ghost use Rattle.links.specs.Linked.{EdgesLinked};
ghost use Rattle.edge_drops.specs.Drops.{RowAsked, RowGone, DropAsked, ListedRoom};
ghost use Rattle.edge_drops.specs.Parted.{Listing, listed, edges_parted};

// The place of a list of edges that says how many are listed.
pub const LISTED: usize = mesh::EDGES;

// The places of such a list.
pub const LIST: usize = mesh::EDGES + 1;

// Removes edge i of the first m from the blocks: the rows behind it move up by one.
fn close_row(i: usize, m: usize, ends: &mut [usize], lengths: &mut [f32])
    requires { RowAsked i m (length ends.old) (length lengths.old) }
    ensures { RowGone i m ends.old ends.new lengths.old lengths.new }
{
    let span = ends.len() / mesh::END_COLUMNS;
    let places = lengths.len() / mesh::LENGTH_COLUMNS;
    let behind = m - 1 - i;
    columns::shift_block(i, i + 1, behind, 4, span, ends);
    columns::shift_block(i, i + 1, behind, 4, places, lengths);
}

// Removes edge i of the first m from the table and from the blocks.
fn drop_row(i: usize, m: usize, ends: &mut [usize], lengths: &mut [f32], table: &mut [u16])
    requires { DropAsked i m ends.old (length lengths.old) table.old }
    ensures { (edges_at (m - 1) ends.new lengths.new
        ≡ without i (edges_at m ends.old lengths.old))
        × EdgesLinked (m - 1) ends.new table.new }
{
    let span = ends.len() / mesh::END_COLUMNS;
    link_changes::drop_cell(i, m, 2, mesh::PARTICLES, mesh::EDGES, span, ends, table);
    close_row(i, m, ends, lengths);
}

// Removes the s listed edges from the first n, the last of them first, from the blocks and from the table; returns how many are left.
fn drop_rest(
    list: &[usize],
    n: usize,
    s: usize,
    ends: &mut [usize],
    lengths: &mut [f32],
    table: &mut [u16],
) -> usize
    requires { ListedRoom list.now n s (length ends.old) (length lengths.old) × EdgesLinked n ends.old table.old }
    ensures { (result ≡ n - s) × (edges_at result ends.new lengths.new
        ≡ left_out (take s list.now) (edges_at n ends.old lengths.old))
        × EdgesLinked result ends.new table.new }
{
    let mut left = n;
    for more in (0..s).rev() {
        drop_row(list[more], left, ends, lengths, table);
        left -= 1;
    }
    left
}

// The same; where none is listed there is nothing to do. The last one goes apart from the others: called at two places, `drop_row` stays a function.
pub fn drop_listed(
    list: &[usize],
    n: usize,
    s: usize,
    ends: &mut [usize],
    lengths: &mut [f32],
    table: &mut [u16],
) -> usize
    requires { ListedRoom list.now n s (length ends.old) (length lengths.old) × EdgesLinked n ends.old table.old }
    ensures { (result ≡ n - s) × (edges_at result ends.new lengths.new
        ≡ left_out (take s list.now) (edges_at n ends.old lengths.old))
        × EdgesLinked result ends.new table.new }
{
    if s == 0 {
        return n;
    }
    drop_row(list[s - 1], n, ends, lengths, table);
    drop_rest(list, n - 1, s - 1, ends, lengths, table)
}

// The listed edges go from the blocks and from the table, and `left` are there then.
pub fn close(
    left: usize,
    list: &[usize],
    ends: &mut [usize],
    lengths: &mut [f32],
    table: &mut [u16],
)
    requires { Listing left (length ends.old) (length lengths.old) list.now × EdgesLinked (left + listed list.now) ends.old
        table.old }
    ensures { (edges_at left ends.new lengths.new ≡ edges_parted left ends.old lengths.old
        list.now) × EdgesLinked left ends.new table.new }
{
    let s = list[LISTED];
    if s == 0 {
        return;
    }
    drop_listed(list, left + s, s, ends, lengths, table);
}

// The listed edges go from the blocks, which no table is kept of, the last of them first.
pub fn close_rows(left: usize, list: &[usize], ends: &mut [usize], lengths: &mut [f32])
    requires { Listing left (length ends.old) (length lengths.old) list.now }
    ensures { edges_at left ends.new lengths.new ≡ edges_parted left ends.old lengths.old
        list.now }
{
    let listed = list[LISTED];
    let mut m = left + listed;
    for more in (0..listed).rev() {
        close_row(list[more], m, ends, lengths);
        m -= 1;
    }
}

// The table of links kept true where one cell changes: it is new, a corner of it moves, or it goes.
#![tactic(auto)]

ghost use Rattle.std.specs.Prelude.{◌≡◌, ◌+◌, ◌-◌, ◌/◌, ◌≤◌, length};
ghost use Rattle.columns.specs.Block.{cell, RowTurned};
ghost use Rattle.columns.specs.View.{Shifted};
ghost use Rattle.links.specs.Links.{LinksOf};
ghost use Rattle.link_changes.specs.Changes.{corner_moved, corner_gone, corner_dropped, less_one, SlotRoom, SlotOf, ChainRoom, CellPut, CellTaken, AppendRoom, MoveRoom, DropRoom, RaiseRoom, LinksRaised, NumbersLowered, TurnRoom};
ghost use Rattle.links.specs.Linked.{PairsLinked};

// The place of the table before cell i in the chain of v: its head, or the link of the last cell below i that holds v.
fn slot_at(
    v: usize,
    i: usize,
    k: usize,
    heads: usize,
    span: usize,
    rows: usize,
    corners: &[usize],
    table: &[u16],
) -> usize
    requires { SlotRoom v i heads k span rows corners.now table.now }
    ensures { SlotOf heads k span v i (cell 0 rows corners.now) result }
{
    let mut at = v;
    let mut next = table[v] as usize;
    // A chain: each place tells the next, so there is no range to go over.
    while next > 0 {
        if next > i {
            return at;
        }
        let c = links::corner_at(v, next - 1, k, rows, corners);
        at = heads + (c * span + (next - 1));
        next = table[at] as usize;
    }
    at
}

// Puts cell i into the chain of w, at its place, by the links of its corner c.
fn put_in(
    w: usize,
    i: usize,
    c: usize,
    k: usize,
    heads: usize,
    span: usize,
    rows: usize,
    corners: &[usize],
    table: &mut [u16],
)
    requires { ChainRoom w i c heads k span rows corners.now table.old }
    ensures { CellPut heads k span w i c (cell 0 rows corners.now) table.old table.new }
{
    let at = slot_at(w, i, k, heads, span, rows, corners, table);
    table[heads + (c * span + i)] = table[at];
    table[at] = (i + 1) as u16;
}

// Row n of the block is new: at each of its corners the new cell goes behind the last of the chain.
pub fn append_cell(
    n: usize,
    k: usize,
    heads: usize,
    span: usize,
    rows: usize,
    corners: &[usize],
    table: &mut [u16],
)
    requires { AppendRoom heads k span rows n corners.now table.old }
    ensures { LinksOf heads k span (n + 1) (cell 0 rows corners.now) table.new }
{
    let mut o: usize = 0;
    for c in 0..k {
        put_in(corners[o + n], n, c, k, heads, span, rows, corners, table);
        o += rows;
    }
}

// Takes cell i out of the chain of v, which is its corner c.
fn take_out(
    v: usize,
    i: usize,
    c: usize,
    k: usize,
    heads: usize,
    span: usize,
    rows: usize,
    corners: &[usize],
    table: &mut [u16],
)
    requires { ChainRoom v i c heads k span rows corners.now table.old }
    ensures { CellTaken heads k span v i c (cell 0 rows corners.now) table.old table.new }
{
    let at = slot_at(v, i, k, heads, span, rows, corners, table);
    let own = heads + (c * span + i);
    table[at] = table[own];
    table[own] = 0;
}

// Corner c of cell i is to become w: it leaves the chain of the corner that it has, and goes into that of w.
// The corners are those before the change, which the caller makes behind it.
pub fn move_corner(
    i: usize,
    c: usize,
    w: usize,
    n: usize,
    k: usize,
    heads: usize,
    span: usize,
    rows: usize,
    corners: &[usize],
    table: &mut [u16],
)
    requires { MoveRoom i c w heads k span rows n corners.now table.old }
    ensures { LinksOf heads k span n (corner_moved i c w (cell 0 rows corners.now)) table.new }
{
    let v = corners[c * rows + i];
    take_out(v, i, c, k, heads, span, rows, corners, table);
    put_in(w, i, c, k, heads, span, rows, corners, table);
}

// Puts w for v in row i of n, in the table and in the block, of which two columns are linked.
pub fn turn_row(
    i: usize,
    v: usize,
    w: usize,
    n: usize,
    width: usize,
    block: &mut [usize],
    table: &mut [u16],
)
    requires { TurnRoom width i v w n block.old table.old }
    ensures { RowTurned 2 (length block.old / width) i v w block.old block.new
        × PairsLinked width n block.new table.new }
{
    if w == v {
        return;
    }
    let rows = block.len() / width;
    let c = links::corner_at(v, i, 2, rows, block);
    move_corner(i, c, w, n, 2, 1024, 2048, rows, block, table);
    block[c * rows + i] = w;
}

// Takes cell i of n out of the chain of each of its corners.
fn take_cell(
    i: usize,
    n: usize,
    k: usize,
    heads: usize,
    span: usize,
    rows: usize,
    corners: &[usize],
    table: &mut [u16],
)
    requires { DropRoom i heads k span rows n corners.now table.old }
    ensures { LinksOf heads k span n (corner_gone heads i (cell 0 rows corners.now)) table.new }
{
    let mut o: usize = 0;
    for c in 0..k {
        take_out(corners[o + i], i, c, k, heads, span, rows, corners, table);
        o += rows;
    }
}

// Moves the len places behind place `to` up by one.
fn raise(to: usize, len: usize, table: &mut [u16])
    requires { to + 1 + len ≤ length table.old }
    ensures { Shifted 0 to (to + 1) len table.old table.new }
{
    for i in 0..len {
        table[to + i] = table[to + 1 + i];
    }
}

// Moves the links of the cells behind i up by one, in each column.
fn raise_links(i: usize, n: usize, k: usize, heads: usize, span: usize, table: &mut [u16])
    requires { RaiseRoom i heads k span n (length table.old) }
    ensures { LinksRaised i heads k span n table.old table.new }
{
    let mut o = heads;
    for c in 0..k {
        raise(o + i, n - 1 - i, table);
        o += span;
    }
}

// A number, less by one if it is above `own`.
fn less_one(own: u16, y: u16) -> u16
    ensures { result ≡ less_one own y }
{
    if y > own { y - 1 } else { y }
}

// Takes 1 from every number of the table that is above `own`.
fn lower(own: u16, table: &mut [u16])
    ensures { NumbersLowered own table.old table.new }
{
    for x in 0..table.len() {
        table[x] = less_one(own, table[x]);
    }
}

// Cell i goes, and those behind it move up by one. The corners are those before the change, which the caller makes behind it.
pub fn drop_cell(
    i: usize,
    n: usize,
    k: usize,
    heads: usize,
    span: usize,
    rows: usize,
    corners: &[usize],
    table: &mut [u16],
)
    requires { DropRoom i heads k span rows n corners.now table.old }
    ensures { LinksOf heads k span (n - 1) (corner_dropped i (cell 0 rows corners.now)) table.new }
{
    take_cell(i, n, k, heads, span, rows, corners, table);
    raise_links(i, n, k, heads, span, table);
    lower((i + 1) as u16, table);
}

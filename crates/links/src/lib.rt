// The cells that hold each particle, in one table: built and read.
// The table has a head for each particle and, behind the heads, the links in as many columns of `span` places as a cell has corners.
// The corners stand in columns of `rows` places.
#![tactic(auto)]

ghost use Rattle.std.specs.Prelude.{◌<◌, ◌≤◌, length};
ghost use Rattle.columns.specs.Block.{cell};
ghost use Rattle.elements.specs.Table.{kind_is};
ghost use Rattle.links.specs.Links.{LinksOf};
ghost use Rattle.links.specs.Rooms.{BuildRoom, RowLent, RowRead, LinkRead, CellLinked, ColumnOf, Cleared, FirstIs, NextIs, ListRoom, CellsListed};
ghost use Rattle.links.specs.Linked.{Linked, Linkable, PairsLinked, PairsLinkable, MeshLinked, MeshLinkable};

use elements::Kind;

// Where the table of the edges begins: behind that of the triangles.
pub const EDGES_FROM: usize = mesh::PARTICLES + mesh::CORNER_COLUMNS * mesh::TRIANGLES;

// Where the table of the boundary begins: behind that of the edges.
pub const SIDES_FROM: usize = EDGES_FROM + mesh::PARTICLES + 2 * mesh::EDGES;

// The places of a call's tables of links.
pub const PLACES: usize = SIDES_FROM + mesh::PARTICLES + mesh::SIDE_COLUMNS * mesh::BOUNDARY;

// Puts cell i first at each of its k corners, and links it to what stood first there.
fn link_cell(
    i: usize,
    k: usize,
    heads: usize,
    span: usize,
    rows: usize,
    corners: &[usize],
    table: &mut [u16],
)
    requires { RowLent heads k span rows i corners.now (length table.old) }
    ensures { CellLinked heads k span i (cell 0 rows corners.now) table.old table.new }
{
    let own = (i + 1) as u16;
    let mut o: usize = 0;
    let mut l: usize = 0;
    for c in 0..k {
        let w = corners[o + i];
        table[heads + (l + i)] = table[w];
        table[w] = own;
        o += rows;
        l += span;
    }
}

// Builds the table of n cells of k corners, from the last cell to the first, where every place is 0.
pub fn build_links(
    n: usize,
    k: usize,
    heads: usize,
    span: usize,
    rows: usize,
    corners: &[usize],
    table: &mut [u16],
)
    requires { BuildRoom heads k span rows n corners.now (length table.old) × Cleared table.old }
    ensures { LinksOf heads k span n (cell 0 rows corners.now) table.new }
{
    for i in (0..n).rev() {
        link_cell(i, k, heads, span, rows, corners, table);
    }
}

// Builds the table of t triangles, where the elements are triangles.
fn link_triangles(kind: Kind, t: usize, corners: &[usize], links: &mut [u16])
    requires { Linkable (kind_is kind) t corners.now (length links.old) × Cleared links.old }
    ensures { Linked (kind_is kind) t corners.now links.new }
{
    match kind {
        Kind::Triangles => {
            let rows = corners.len() / mesh::CORNER_COLUMNS;
            build_links(
                t,
                mesh::CORNER_COLUMNS,
                mesh::PARTICLES,
                mesh::TRIANGLES,
                rows,
                corners,
                links,
            );
        }
        Kind::Straps => {}
        Kind::Nothing => {}
    }
}

// Builds the table of the first n rows of a block of w columns, by the first two of them.
fn link_pairs(w: usize, n: usize, block: &[usize], table: &mut [u16])
    requires { (2 ≤ w) × PairsLinkable w n block.now (length table.old) × Cleared table.old }
    ensures { PairsLinked w n block.now table.new }
{
    let rows = block.len() / w;
    build_links(n, 2, mesh::PARTICLES, mesh::EDGES, rows, block, table);
}

// Builds the tables of t triangles, of e edges and of b boundary entries, one behind the other, where every place is 0.
pub fn link_mesh(
    kind: Kind,
    t: usize,
    e: usize,
    b: usize,
    corners: &[usize],
    ends: &[usize],
    outline: &[usize],
    links: &mut [u16],
)
    requires { MeshLinkable (kind_is kind) t e b corners.now ends.now outline.now (length links.old) × Cleared links.old }
    ensures { MeshLinked (kind_is kind) t e b corners.now ends.now outline.now
        links.new }
{
    link_triangles(kind, t, corners, &mut links[..EDGES_FROM]);
    link_pairs(4, e, ends, &mut links[EDGES_FROM..SIDES_FROM]);
    link_pairs(2, b, outline, &mut links[SIDES_FROM..]);
}

// The column of v among the corners of cell i, which holds it.
pub fn corner_at(v: usize, i: usize, k: usize, rows: usize, corners: &[usize]) -> usize
    requires { RowRead k rows v i corners.now }
    ensures { ColumnOf k v i (cell 0 rows corners.now) result }
{
    let mut c: usize = 0;
    let mut q: usize = i;
    // The last column is not read, and `0..k - 1` would have to be shown to exist.
    while c + 1 < k {
        if corners[q] == v {
            return c;
        }
        q += rows;
        c += 1;
    }
    c
}

// The number plus 1 of the first cell that holds v, or 0 where none does.
pub fn first_at(v: usize, table: &[u16]) -> usize
    requires { v < length table.now }
    ensures { FirstIs v table.now result }
{
    table[v] as usize
}

// The number plus 1 of the next cell behind i that holds v, or 0 where none does. Cell i holds v.
pub fn next_at(
    v: usize,
    i: usize,
    k: usize,
    heads: usize,
    span: usize,
    rows: usize,
    corners: &[usize],
    table: &[u16],
) -> usize
    requires { LinkRead heads k span rows v i corners.now (length table.now) }
    ensures { NextIs heads k span v i (cell 0 rows corners.now) table.now result }
{
    let c = corner_at(v, i, k, rows, corners);
    table[heads + (c * span + i)] as usize
}

// Writes the cells that hold v to the front of a list, rising, and tells how many they are.
pub fn cells_at(
    v: usize,
    n: usize,
    k: usize,
    heads: usize,
    span: usize,
    rows: usize,
    corners: &[usize],
    table: &[u16],
    list: &mut [usize],
) -> usize
    requires { ListRoom v heads k span rows n corners.now table.now (length list.old) }
    ensures { CellsListed k n v (cell 0 rows corners.now) list.new result }
{
    let mut r: usize = 0;
    let mut at = first_at(v, table);
    // A chain: each place tells the next, so there is no range to go over.
    while at > 0 {
        let i = at - 1;
        list[r] = i;
        at = next_at(v, i, k, heads, span, rows, corners, table);
        r += 1;
    }
    r
}

// Does an element hold two particles: asked of the triangles or the edges that their table has at one of them, and of no table of the elements.
ghost use Rattle.std.specs.Prelude.{◌≡◌, ◌/◌, ◌<◌, length};
ghost use Rattle.lists.specs.Lists.{any, up_to};
ghost use Rattle.elements.specs.Table.{kind_is};
ghost use Rattle.straddling.specs.Tests.{triangle_holds, strap_holds_of, WalkRoom, EdgeWalkRoom, HeldRoom, HeldTold};
ghost use Rattle.mesh.specs.Widths.{end_columns};

use elements::Kind;

// Is edge i structural, and does it hold both x and y?
fn strap_holds(x: usize, y: usize, i: usize, ends: &[usize]) -> bool
    requires { i < length ends.now / end_columns }
    ensures { result ≡ strap_holds_of x y ends.now i }
{
    let n = ends.len() / mesh::END_COLUMNS;
    if ends[2 * n + i] != 1 {
        return false;
    }
    if columns::row_holds(x, i, 2, n, ends) {
        return columns::row_holds(y, i, 2, n, ends);
    }
    false
}

// Does one of the first t triangles hold both x and y? Those that hold x are asked, link by link.
fn any_triangle(x: usize, y: usize, t: usize, corners: &[usize], links: &[u16]) -> bool
    requires { WalkRoom x t corners.now links.now }
    ensures { result ≡ any (triangle_holds x y corners.now) (up_to t) }
{
    let rows = corners.len() / mesh::CORNER_COLUMNS;
    let mut at = links::first_at(x, links);
    // A chain: each place tells the next, so there is no range to go over.
    while at > 0 {
        let i = at - 1;
        if columns::row_holds(y, i, mesh::CORNER_COLUMNS, rows, corners) {
            return true;
        }
        at = links::next_at(
            x,
            i,
            mesh::CORNER_COLUMNS,
            mesh::PARTICLES,
            mesh::TRIANGLES,
            rows,
            corners,
            links,
        );
    }
    false
}

// Does one of the structural edges among the first e hold both x and y? Those that hold x are asked, link by link.
fn any_strap(x: usize, y: usize, e: usize, ends: &[usize], table: &[u16]) -> bool
    requires { EdgeWalkRoom x e ends.now table.now }
    ensures { result ≡ any (strap_holds_of x y ends.now) (up_to e) }
{
    let rows = ends.len() / mesh::END_COLUMNS;
    let mut at = links::first_at(x, table);
    // A chain: each place tells the next, so there is no range to go over.
    while at > 0 {
        let i = at - 1;
        if strap_holds(x, y, i, ends) {
            return true;
        }
        at = links::next_at(x, i, 2, mesh::PARTICLES, mesh::EDGES, rows, ends, table);
    }
    false
}

// Does an element hold both x and y, where the elements are among the first t triangles, which the one table links, or the first e edges, which the other does?
pub fn held(
    kind: Kind,
    x: usize,
    y: usize,
    t: usize,
    e: usize,
    corners: &[usize],
    ends: &[usize],
    links: &[u16],
    table: &[u16],
) -> bool
    requires { HeldRoom (kind_is kind) x t e corners.now ends.now links.now table.now }
    ensures { HeldTold (kind_is kind) x y t e corners.now ends.now result }
{
    match kind {
        Kind::Triangles => any_triangle(x, y, t, corners, links),
        Kind::Straps => any_strap(x, y, e, ends, table),
        Kind::Nothing => false,
    }
}

// The outline that a sheet is read with.
ghost use Rattle.std.specs.Prelude.{◌≡◌, ◌||◌, ℕ, ◌≤◌, length, drop, ltb};
ghost use Rattle.bits.specs.Bits.{bits_of};
ghost use Rattle.bits.specs.Rows.{read_rows};
ghost use Rattle.outline.specs.Outline.{outline_of_triangles, outline_of_straps};
ghost use Rattle.outline_tables.specs.Rows.{Listed};
ghost use Rattle.sheet.specs.Sheet.{triangle_w, edge_w};
ghost use Rattle.edition.specs.Edition.{typed_of, own_of, overlong};
ghost use Rattle.edition.specs.Work.{NamesIn, StartIn, FirstIn, BlockIn, OutlineFound, LookedAt};

use crate::Seen;
use mesh::refusals::Refusal;
use outline_tables::Settled;
use sheet::Counts;

// Lists the outline of n triangles whose rows begin at bit `at`, and returns how many sides it has. Three columns are lent to read them into.
fn triangle_sides(
    s: &[u8],
    at: usize,
    n: usize,
    a: &mut [usize],
    b: &mut [usize],
    c: &mut [usize],
    block: &mut [usize],
) -> usize
    requires { NamesIn s.now at 30 n (length a.old) (length b.old) (length c.old) }
    ensures { Listed (outline_of_triangles (read_rows triangle_w n (drop at (bits_of s.now)))) block.new result }
{
    bits::read_column(s, at, 30, 10, n, a);
    bits::read_column(s, at + 10, 30, 10, n, b);
    bits::read_column(s, at + 20, 30, 10, n, c);
    outline_tables::outline_triangles(&a[..n], &b[..n], &c[..n], block)
}

// Lists the outline of n edges whose rows begin at bit `at`, and returns how many sides it has. Three columns are lent to read them into.
fn strap_sides(
    s: &[u8],
    at: usize,
    n: usize,
    a: &mut [usize],
    b: &mut [usize],
    c: &mut [usize],
    block: &mut [usize],
) -> usize
    requires { NamesIn s.now at 21 n (length a.old) (length b.old) (length c.old) }
    ensures { Listed (outline_of_straps (read_rows edge_w n (drop at (bits_of s.now)))) block.new result }
{
    bits::read_column(s, at, 21, 10, n, a);
    bits::read_column(s, at + 10, 21, 10, n, b);
    bits::read_column(s, at + 20, 21, 1, n, c);
    outline_tables::outline_straps(&a[..n], &b[..n], &c[..n], block)
}

// Lists a sheet's own outline, and returns how many sides it has.
fn own_sides(s: &[u8], c: Counts, start: usize, block: &mut [usize]) -> usize
    requires { StartIn s.now c start }
    ensures { Listed (own_of (typed_of (bits_of s.now))) block.new result }
{
    let mut first = [0usize; 2048];
    let mut second = [0usize; 2048];
    let mut third = [0usize; 2048];
    let at = start + c.particles * 23;
    if c.triangles == 0 {
        return strap_sides(s, at, c.edges, &mut first, &mut second, &mut third, block);
    }
    triangle_sides(
        s,
        at,
        c.triangles,
        &mut first,
        &mut second,
        &mut third,
        block,
    )
}

// Puts the outline that a first-edition sheet is read with to the front of a block: the typed one, settled by its own.
fn settle_typed(s: &[u8], c: Counts, own: &mut [usize], block: &mut [usize]) -> Settled
    requires { FirstIn s.now c (length own.old) (length block.old) }
    ensures { OutlineFound s.now block.new result }
{
    let m = own_sides(s, c, 46, own);
    let at = 46 + c.particles * 23 + c.triangles * 30 + c.edges * 21;
    sheet_rows::read_sides(s, at, c.boundary, block);
    outline_tables::settle(own, m, c.boundary, block)
}

// Puts the outline that a sheet is read with to the front of a block.
fn find_outline(s: &[u8], c: Counts, block: &mut [usize]) -> Settled
    requires { BlockIn s.now c (length block.old) }
    ensures { OutlineFound s.now block.new result }
{
    if crate::typed::is_second(s) {
        return Settled {
            count: own_sides(s, c, 45, block),
            replaced: false,
        };
    }
    let mut own = [0usize; 6144];
    settle_typed(s, c, &mut own, block)
}

// Whether an outline has more entries than a mesh or the caller takes.
fn too_long(limits: Counts, n: usize) -> bool
    ensures { result ≡ overlong limits n }
{
    if 2048 < n {
        return true;
    }
    limits.boundary < n
}

// What a sheet is; where it is whole, the outline that it is read with is put to the front of a block.
pub fn look_into(s: &[u8], limits: Counts, block: &mut [usize]) -> Result<Seen, Refusal>
    requires { 6144 ≤ length block.old }
    ensures { LookedAt limits s.now block.new result }
{
    let c = crate::typed::look_typed(s, limits)?;
    let found = find_outline(s, c, block);
    if too_long(limits, found.count) {
        return Err(Refusal::Size);
    }
    let d = Counts {
        particles: c.particles,
        triangles: c.triangles,
        edges: c.edges,
        boundary: found.count,
    };
    Ok(Seen {
        counts: d,
        replaced: found.replaced,
    })
}

// Two whole sheets: every line of their differences.
ghost use Rattle.std.specs.Prelude.{◌≤◌, length};
ghost use Rattle.bits.specs.Bits.{bits_of};
ghost use Rattle.sheet.specs.Work.{RowsIn};
ghost use Rattle.edition.specs.Work.{BladeAt};
ghost use Rattle.differences.specs.Differences.{rows_differ, differences};
ghost use Rattle.differences.specs.declared.Part.TheVariants.{Edges};
ghost use Rattle.differing.specs.Differed.{read_sheet};
ghost use Rattle.differences.specs.Work.{Lists};
ghost use Rattle.differing.specs.Work.{start, count_lines, BladeRead, list_lines, rest_lines, Going};

use differences::Part;
use differences::lines::{Four, Lines};
use sheet::Counts;

// Where a sheet's blade begins.
fn blade_bit(s: &[u8]) -> usize
    requires { 6 ≤ length s.now }
    ensures { BladeAt (bits_of s.now) result }
{
    let c = edition::typed::counts_in(s);
    let at = edition::typed::start_bit(s);
    at + c.particles * 23 + c.triangles * 30 + c.edges * 21 + c.boundary * 20
}

// The fields of the blade that begins at a bit.
fn blade_at(s: &[u8], at: usize) -> Four
    requires { RowsIn s.now at 11 4 }
    ensures { BladeRead (bits_of s.now) at result }
{
    Four {
        x0: bits::field(s, at, 11),
        y0: bits::field(s, at + 11, 11),
        x1: bits::field(s, at + 22, 11),
        y1: bits::field(s, at + 33, 11),
    }
}

// Writes the lines of the counts that differ, from nothing on.
fn put_counts(out: &mut [u8], c: Counts, d: Counts) -> Lines
    ensures { Lists (count_lines c d) out.old start out.new result }
{
    let none = Lines {
        at: Some(0),
        count: 0,
    };
    let one = differences::lines::put_count(out, none, Part::Particles, c.particles, d.particles);
    let two = differences::lines::put_count(out, one, Part::Triangles, c.triangles, d.triangles);
    let three = differences::lines::put_count(out, two, Part::Edges, c.edges, d.edges);
    differences::lines::put_count(out, three, Part::Boundary, c.boundary, d.boundary)
}

// Writes the lines of edges.
fn put_edges(
    out: &mut [u8],
    l: Lines,
    first: &[u8],
    c: Counts,
    left: &[usize],
    second: &[u8],
    d: Counts,
    right: &[usize],
) -> Lines
    requires { Going first.now c left.now second.now d right.now 1028 l.count }
    ensures { Lists (rows_differ Edges 0 (read_sheet first.now).edges (read_sheet second.now).edges)
        out.old l out.new result }
{
    let p = edition::typed::start_bit(first) + c.particles * 23 + c.triangles * 30;
    let q = edition::typed::start_bit(second) + d.particles * 23 + d.triangles * 30;
    row_differences::put_list(
        out,
        l,
        Part::Edges,
        10,
        1,
        first,
        p,
        c.edges,
        second,
        q,
        d.edges,
    )
}

// Writes the lines of particles, triangles and edges.
fn put_lists(
    out: &mut [u8],
    l: Lines,
    first: &[u8],
    c: Counts,
    left: &[usize],
    second: &[u8],
    d: Counts,
    right: &[usize],
) -> Lines
    requires { Going first.now c left.now second.now d right.now 4 l.count }
    ensures { Lists (list_lines (read_sheet first.now) (read_sheet second.now)) out.old l
        out.new result }
{
    let p = edition::typed::start_bit(first);
    let p_t = p + c.particles * 23;
    let q = edition::typed::start_bit(second);
    let q_t = q + d.particles * 23;
    let one = row_differences::put_list(
        out,
        l,
        Part::Particles,
        11,
        1,
        first,
        p,
        c.particles,
        second,
        q,
        d.particles,
    );
    let two = row_differences::put_list(
        out,
        one,
        Part::Triangles,
        10,
        10,
        first,
        p_t,
        c.triangles,
        second,
        q_t,
        d.triangles,
    );
    put_edges(out, two, first, c, left, second, d, right)
}

// Writes the lines of the outlines and of the blades.
fn put_rest(
    out: &mut [u8],
    l: Lines,
    first: &[u8],
    c: Counts,
    left: &[usize],
    second: &[u8],
    d: Counts,
    right: &[usize],
) -> Lines
    requires { Going first.now c left.now second.now d right.now 2048 l.count }
    ensures { Lists (rest_lines (read_sheet first.now) (read_sheet second.now)) out.old l
        out.new result }
{
    let sides = row_differences::put_sides(out, l, left, c.boundary, right, d.boundary);
    let a = blade_at(first, blade_bit(first));
    let b = blade_at(second, blade_bit(second));
    differences::lines::put_blades(out, sides, a, b)
}

// Writes the lines of all differences of two whole sheets, from nothing on.
pub fn put_all(
    out: &mut [u8],
    first: &[u8],
    c: Counts,
    left: &[usize],
    second: &[u8],
    d: Counts,
    right: &[usize],
) -> Lines
    requires { Going first.now c left.now second.now d right.now 0 0 }
    ensures { Lists (differences (read_sheet first.now) (read_sheet second.now)) out.old start
        out.new result }
{
    let counts = put_counts(out, c, d);
    let lists = put_lists(out, counts, first, c, left, second, d, right);
    put_rest(out, lists, first, c, left, second, d, right)
}

// Two lists of rows, place by place.
#![tactic(auto)]

ghost use Rattle.std.specs.Prelude.{◌≡◌, [], ◌∷◌, ℕ, ◌≤◌, length, drop};
ghost use Rattle.bits.specs.Bits.{bits_of};
ghost use Rattle.bits.specs.Rows.{read_rows};
ghost use Rattle.outline_tables.specs.Rows.{sides_at};
ghost use Rattle.differences.specs.Differences.{rows_differ};
ghost use Rattle.differences.specs.Work.{Lists};
ghost use Rattle.row_differences.specs.Work.{Longer, reading_at, rows_in, Level, RowsAsked, ThreeIn, ThreeRead, ListAsked, SidesAsked};
ghost use Rattle.differences.specs.declared.Part.TheVariants.{Boundary};

use differences::Part;
use differences::lines::Lines;

// The larger of two numbers.
fn longer(n: usize, m: usize) -> usize
    ensures { Longer n m result }
{
    if n < m { m } else { n }
}

// The reading of place k of three columns, or none where they have no such place.
fn reading(a: &[usize], b: &[usize], c: &[usize], k: usize) -> Option<(usize, usize, usize)>
    requires { Level (length a.now) (length b.now) (length c.now) }
    ensures { result ≡ reading_at a.now b.now c.now k }
{
    if k < a.len() {
        return Some((a[k], b[k], c[k]));
    }
    None
}

// Writes the lines of the places at which two lists of rows differ, each list in three columns.
fn put_rows(
    out: &mut [u8],
    l: Lines,
    part: Part,
    a: &[usize],
    b: &[usize],
    c: &[usize],
    x: &[usize],
    y: &[usize],
    z: &[usize],
) -> Lines
    requires { RowsAsked part a.now b.now c.now x.now y.now z.now l.count }
    ensures { Lists (rows_differ part 0 (rows_in part a.now b.now c.now)
        (rows_in part x.now y.now z.now)) out.old l out.new result }
{
    let n = longer(a.len(), x.len());
    let mut l = l;
    for k in 0..n {
        let r = reading(a, b, c, k);
        let s = reading(x, y, z, k);
        l = differences::lines::put_place(out, l, part, k, r, s);
    }
    l
}

// Reads n rows of two fields of w bits and one of v, the first at bit `at`, to the fronts of three columns.
fn read_three(
    s: &[u8],
    at: usize,
    w: usize,
    v: usize,
    n: usize,
    a: &mut [usize],
    b: &mut [usize],
    c: &mut [usize],
)
    requires { ThreeIn s.now at w v n (length a.old) (length b.old) (length c.old) }
    ensures { ThreeRead (bits_of s.now) at w v n a.new b.new c.new }
{
    let step = w + w + v;
    bits::read_column(s, at, step, w, n, a);
    bits::read_column(s, at + w, step, w, n, b);
    bits::read_column(s, at + w + w, step, v, n, c);
}

// Writes the lines of a list of two sheets: n rows at bit p of the first, m at bit q of the second, of two fields of w bits and one of v.
pub fn put_list(
    out: &mut [u8],
    l: Lines,
    part: Part,
    w: usize,
    v: usize,
    first: &[u8],
    p: usize,
    n: usize,
    second: &[u8],
    q: usize,
    m: usize,
) -> Lines
    requires { ListAsked part w v first.now p n second.now q m l.count }
    ensures { Lists (rows_differ part 0 (read_rows (w ∷ w ∷ v ∷ []) n (drop p (bits_of first.now)))
        (read_rows (w ∷ w ∷ v ∷ []) m (drop q (bits_of second.now)))) out.old l out.new result }
{
    let mut a = [0usize; 256];
    let mut b = [0usize; 256];
    let mut c = [0usize; 256];
    let mut x = [0usize; 256];
    let mut y = [0usize; 256];
    let mut z = [0usize; 256];
    read_three(first, p, w, v, n, &mut a, &mut b, &mut c);
    read_three(second, q, w, v, m, &mut x, &mut y, &mut z);
    put_rows(
        out,
        l,
        part,
        &a[..n],
        &b[..n],
        &c[..n],
        &x[..m],
        &y[..m],
        &z[..m],
    )
}

// Writes the lines of two outlines: n sides of a block, and m of another.
pub fn put_sides(
    out: &mut [u8],
    l: Lines,
    left: &[usize],
    n: usize,
    right: &[usize],
    m: usize,
) -> Lines
    requires { SidesAsked n (length left.now) m (length right.now) l.count }
    ensures { Lists (rows_differ Boundary 0 (sides_at n left.now) (sides_at m right.now)) out.old l
        out.new result }
{
    let h = left.len() / 2;
    let e = h + n;
    let g = right.len() / 2;
    let f = g + m;
    put_rows(
        out,
        l,
        Part::Boundary,
        &left[..n],
        &left[h..e],
        &left[..n],
        &right[..m],
        &right[g..f],
        &right[..m],
    )
}

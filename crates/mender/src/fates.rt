// Which bytes are mended, and the fates of the rows of their lists.
ghost use Rattle.std.specs.Prelude.{◌≡◌, [], ℕ, ◌≤◌, length, drop};
ghost use Rattle.bits.specs.Bits.{bits_of};
ghost use Rattle.bits.specs.Rows.{read_rows};
ghost use Rattle.sheet.specs.Sheet.{boundary_w};
ghost use Rattle.sheet.specs.Work.{Small};
ghost use Rattle.edition.specs.Edition.{bytes_in};
ghost use Rattle.mending.specs.Work.{boundary_from};
ghost use Rattle.mender.specs.Work.{codes_at, Judged, MarkIn, LentMarks, Marked};

use mesh::refusals::Refusal;
use sheet::Counts;

// How many bytes a sheet of an edition has.
pub fn byte_len(second: bool, c: Counts) -> usize
    requires { Small c }
    ensures { result ≡ bytes_in second c }
{
    let end = sheet::end_bit(c);
    if second {
        (end - 1 + 7) / 8
    } else {
        (end + 7) / 8
    }
}

// Whether bytes are mended, or why they are refused.
pub fn refusal(s: &[u8]) -> Result<(), Refusal>
    ensures { Judged s.now result }
{
    if s.len() < 6 {
        return Err(Refusal::Sheet);
    }
    let c = edition::typed::counts_in(s);
    let most = Counts {
        particles: mesh::PARTICLES,
        triangles: mesh::TRIANGLES,
        edges: mesh::EDGES,
        boundary: mesh::BOUNDARY,
    };
    if sheet::refused_counts(most, c) {
        return Err(Refusal::Size);
    }
    if s.len() == byte_len(edition::typed::is_second(s), c) {
        Ok(())
    } else {
        Err(Refusal::Sheet)
    }
}

// Marks what becomes of the rows of two names, or of three, of p particles that begin at bit `at`, each `step` bits after the one before.
fn mark_list(s: &[u8], at: usize, step: usize, three: bool, p: usize, mask: &mut [usize])
    requires { MarkIn s.now at step (length mask.old) }
    ensures { mask.new ≡ codes_at three p (bits_of s.now) at step (length mask.old) }
{
    let n = mask.len();
    let mut pos = at;
    for i in 0..n {
        let a = bits::field(s, pos, 10);
        let b = bits::field(s, pos + 10, 10);
        let c = bits::field(s, pos + 20, 10);
        mask[i] = mending::fate(three, p, a, b, c);
        pos += step;
    }
}

// Marks what becomes of the boundary entries of p particles whose rows begin at bit `at`. Two columns are lent to read them into.
fn mark_boundary(
    s: &[u8],
    at: usize,
    p: usize,
    a: &mut [usize],
    b: &mut [usize],
    mask: &mut [usize],
)
    requires { MarkIn s.now at 20 (length mask.old) × (length mask.old ≤ length a.old) × (length mask.old ≤ length b.old) }
    ensures { mask.new ≡ boundary_from p [] (read_rows boundary_w (length mask.old)
        (drop at (bits_of s.now))) }
{
    let n = mask.len();
    mark_list(s, at, 20, false, p, mask);
    bits::read_column(s, at, 20, 10, n, a);
    bits::read_column(s, at + 10, 20, 10, n, b);
    mending::mark_doubles(&a[..n], &b[..n], mask);
}

// Marks what becomes of every row of the three lists.
pub fn mark_all(s: &[u8], triangles: &mut [usize], edges: &mut [usize], boundary: &mut [usize])
    requires { LentMarks s.now (length triangles.old) (length edges.old) (length boundary.old) }
    ensures { Marked s.now triangles.new edges.new boundary.new }
{
    let mut a = [0usize; 2048];
    let mut b = [0usize; 2048];
    let counts = edition::typed::counts_in(s);
    let p = counts.particles;
    let at_t = edition::typed::start_bit(s) + p * 23;
    let at_e = at_t + counts.triangles * 30;
    let at_b = at_e + counts.edges * 21;
    mark_list(s, at_t, 30, true, p, triangles);
    mark_list(s, at_e, 21, false, p, edges);
    mark_boundary(s, at_b, p, &mut a, &mut b, boundary);
}

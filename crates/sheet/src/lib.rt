// Sheets of the first edition, packed in bits: how many of each they have, and what they are answered.
#![tactic(auto)]

ghost use Rattle.std.specs.Prelude.{◌≡◌, ◌||◌, ℕ, ◌+◌, ◌≤◌, length};
ghost use Rattle.bits.specs.Bits.{bits_of};
ghost use Rattle.sheet.specs.Sheet.{end_of, bytes_of, above, too_many_of, pair_ok_of, seen_of};
ghost use Rattle.sheet.specs.Work.{row_at, ok_at_of, names_at, Small, CountsRead, RowsIn, Framed};

use mesh::refusals::Refusal;

// How many of each a sheet says it has.
#[derive(Clone, Copy)]
pub struct Counts {
    pub particles: usize,
    pub triangles: usize,
    pub edges: usize,
    pub boundary: usize,
}

// The counts that a sheet begins with.
pub fn counted(s: &[u8]) -> Counts
    requires { 6 ≤ length s.now }
    ensures { CountsRead (bits_of s.now) result }
{
    Counts {
        particles: bits::field(s, 0, 11),
        triangles: bits::field(s, 11, 11),
        edges: bits::field(s, 22, 12),
        boundary: bits::field(s, 34, 12),
    }
}

// Whether a count is above its limit.
fn exceeds(limits: Counts, c: Counts) -> bool
    ensures { result ≡ above limits c }
{
    if limits.particles < c.particles {
        return true;
    }
    if limits.triangles < c.triangles {
        return true;
    }
    if limits.edges < c.edges {
        return true;
    }
    limits.boundary < c.boundary
}

// Whether a count is above its limit.
pub fn too_many(c: Counts) -> bool
    ensures { result ≡ too_many_of c }
{
    exceeds(
        Counts {
            particles: mesh::PARTICLES,
            triangles: mesh::TRIANGLES,
            edges: mesh::EDGES,
            boundary: mesh::BOUNDARY,
        },
        c,
    )
}

// Whether a count is above its limit or the caller's.
pub fn refused_counts(limits: Counts, c: Counts) -> bool
    ensures { result ≡ (too_many_of c || above limits c) }
{
    if too_many(c) {
        return true;
    }
    exceeds(limits, c)
}

// How many bits a sheet has, without the spare ones.
pub fn end_bit(c: Counts) -> usize
    requires { Small c }
    ensures { result ≡ end_of c }
{
    46 + c.particles * 23 + c.triangles * 30 + c.edges * 21 + c.boundary * 20 + 44
}

pub fn byte_len(c: Counts) -> usize
    requires { Small c }
    ensures { result ≡ bytes_of c }
{
    (end_bit(c) + 7) / 8
}

// Two different particles of p.
pub fn pair_ok(p: usize, a: usize, b: usize) -> bool
    ensures { result ≡ pair_ok_of p a b }
{
    if a < p {
        if b < p { a != b } else { false }
    } else {
        false
    }
}

// The row at bit `at` names different particles of p: its first two fields, or three.
fn row_ok(s: &[u8], at: usize, three: bool, p: usize) -> bool
    requires { RowsIn s.now at 30 1 }
    ensures { result ≡ row_at three p (bits_of s.now) at }
{
    let a = bits::field(s, at, 10);
    let b = bits::field(s, at + 10, 10);
    if pair_ok(p, a, b) {
        if three {
            let c = bits::field(s, at + 20, 10);
            if pair_ok(p, a, c) {
                pair_ok(p, b, c)
            } else {
                false
            }
        } else {
            true
        }
    } else {
        false
    }
}

// n rows of `step` bits from bit `at` name different particles of p.
pub fn rows_ok(s: &[u8], at: usize, step: usize, n: usize, three: bool, p: usize) -> bool
    requires { RowsIn s.now (at + 44) step n }
    ensures { result ≡ ok_at_of three p (bits_of s.now) at step n }
{
    for i in 0..n {
        if !row_ok(s, at + i * step, three, p) {
            return false;
        }
    }
    true
}

// Every element names particles, and none twice.
fn names_ok(s: &[u8], c: Counts) -> bool
    requires { Framed s.now c }
    ensures { result ≡ names_at c (bits_of s.now) }
{
    let p = c.particles;
    let at_t = 46 + p * 23;
    let at_e = at_t + c.triangles * 30;
    let at_b = at_e + c.edges * 21;
    if rows_ok(s, at_t, 30, c.triangles, true, p) {
        if rows_ok(s, at_e, 21, c.edges, false, p) {
            rows_ok(s, at_b, 20, c.boundary, false, p)
        } else {
            false
        }
    } else {
        false
    }
}

// What a sheet is: whole, with its counts, or why it is refused.
pub fn look(s: &[u8], limits: Counts) -> Result<Counts, Refusal>
    ensures { result ≡ seen_of limits s.now }
{
    if s.len() < 6 {
        return Err(Refusal::Sheet);
    }
    let c = counted(s);
    if refused_counts(limits, c) {
        return Err(Refusal::Size);
    }
    let end = end_bit(c);
    let bytes = byte_len(c);
    if s.len() != bytes {
        return Err(Refusal::Sheet);
    }
    if bits::field(s, end, 8 * bytes - end) != 0 {
        return Err(Refusal::Sheet);
    }
    if names_ok(s, c) {
        Ok(c)
    } else {
        Err(Refusal::Name)
    }
}

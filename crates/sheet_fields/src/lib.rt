// What a writer of sheets is handed: its columns are tested, and their coordinates are written as fields of 11 bits.
#![tactic(auto)]

ghost use Rattle.std.specs.Prelude.{◌≡◌, [], ◌∷◌, map, ℕ, length};
ghost use Rattle.std.proofs.lemmas.List.Edits.{sets};
ghost use Rattle.bits.specs.Bits.{bits_of};
ghost use Rattle.bits.specs.Rows.{pack, write_rows, rows_of};
ghost use Rattle.bits.specs.Places.{TableIn, FourIn};
ghost use Rattle.sheet.specs.Sheet.{all_below, all_ok, row_ok, even3, even_of, fit3, fit_of, sheet_from, names_ok, answer_of, the_field_of, fields_of, particle_w, blade_w, wholes_in, wholes_before};
ghost use Rattle.sheet.specs.Work.{Even};
ghost use Rattle.mesh.specs.Refused.{refusal_in};

use mesh::refusals::Refusal;
use sheet::Counts;

// The 11-bit two's complement field of a whole number; 2048, which the writer refuses, where there is none.
pub fn field_of(z: i64) -> usize
    ensures { result ≡ the_field_of z }
{
    if z < 0 {
        if z < -1024 {
            return 2048;
        }
        return (z + 2048) as usize;
    }
    if z < 1024 {
        return z as usize;
    }
    2048
}

// Every number of a column is below a bound.
fn below(a: &[usize], bound: usize) -> bool
    ensures { result ≡ all_below bound a.now }
{
    for &x in a {
        if x >= bound {
            return false;
        }
    }
    true
}

// Every row of three columns names different particles of p: in the first two, or in all three.
fn names_in(three: bool, p: usize, a: &[usize], b: &[usize], c: &[usize]) -> bool
    requires { (length b.now ≡ length a.now) × (length c.now ≡ length a.now) }
    ensures { result ≡ all_ok three p (rows_of (a.now ∷ b.now ∷ c.now ∷ []) 0 (length a.now)) }
{
    for i in 0..a.len() {
        if !names_row(three, p, a[i], b[i], c[i]) {
            return false;
        }
    }
    true
}

fn names_row(three: bool, p: usize, a: usize, b: usize, c: usize) -> bool
    ensures { result ≡ row_ok three p a b c }
{
    if sheet::pair_ok(p, a, b) {
        if three {
            if sheet::pair_ok(p, a, c) {
                sheet::pair_ok(p, b, c)
            } else {
                false
            }
        } else {
            true
        }
    } else {
        false
    }
}

fn same3(a: &[usize], b: &[usize], c: &[usize]) -> bool
    ensures { result ≡ even3 a.now b.now c.now }
{
    if b.len() == a.len() {
        c.len() == a.len()
    } else {
        false
    }
}

fn fits3(l: usize, m: usize, n: usize, a: &[usize], b: &[usize], c: &[usize]) -> bool
    ensures { result ≡ fit3 l m n a.now b.now c.now }
{
    if below(a, l) {
        if below(b, m) { below(c, n) } else { false }
    } else {
        false
    }
}

// Every whole number of a column has a field.
fn whole_fit(a: &[i64]) -> bool
    ensures { result ≡ all_below 2048 (map the_field_of a.now) }
{
    for i in 0..a.len() {
        if field_of(a[i]) >= 2048 {
            return false;
        }
    }
    true
}

// The columns of particles have one length.
fn same_particles(x: &[i64], y: &[i64], pinned: &[usize]) -> bool
    ensures { result ≡ even3 (map the_field_of x.now) (map the_field_of y.now) pinned.now }
{
    if y.len() == x.len() {
        pinned.len() == x.len()
    } else {
        false
    }
}

// The bits can hold each number of the particles.
fn particles_fit(x: &[i64], y: &[i64], pinned: &[usize]) -> bool
    ensures { result ≡ fit3 2048 2048 2 (map the_field_of x.now) (map the_field_of y.now) pinned.now }
{
    if whole_fit(x) {
        if whole_fit(y) {
            below(pinned, 2)
        } else {
            false
        }
    } else {
        false
    }
}

// Writes the rows of particles from bit `at` on.
pub fn put_particles(s: &mut [u8], at: usize, x: &[i64], y: &[i64], pinned: &[usize])
    requires { TableIn s.old at 11 11 1 (map the_field_of x.now) (map the_field_of y.now) pinned.now }
    ensures { bits_of s.new ≡ sets (bits_of s.old) at (write_rows particle_w
        (rows_of (map the_field_of x.now ∷ map the_field_of y.now ∷ pinned.now ∷ []) 0
        (length (map the_field_of x.now)))) }
{
    let n = x.len();
    let mut pos = at;
    for i in 0..n {
        let across = field_of(x[i]);
        let up = field_of(y[i]);
        bits::put_row(s, pos, 11, 11, 1, across, up, pinned[i]);
        pos += 23;
    }
}

// Writes the four coordinates of the blade at bit `at`.
pub fn put_blade(s: &mut [u8], at: usize, blade: &[i64])
    requires { FourIn s.old at 11 11 × (length blade.now ≡ 4) }
    ensures { bits_of s.new ≡ sets (bits_of s.old) at (pack blade_w (map the_field_of blade.now)) }
{
    let x0 = field_of(blade[0]);
    let y0 = field_of(blade[1]);
    let x1 = field_of(blade[2]);
    let y1 = field_of(blade[3]);
    bits::put_four(s, at, 11, 11, x0, y0, x1, y1);
}

fn all_same(
    x: &[i64],
    y: &[i64],
    pinned: &[usize],
    t0: &[usize],
    t1: &[usize],
    t2: &[usize],
    e0: &[usize],
    e1: &[usize],
    structural: &[usize],
    b0: &[usize],
    b1: &[usize],
    blade: &[i64],
) -> bool
    ensures { result ≡ even_of (fields_of (wholes_before x y pinned t0 t1 t2 e0 e1 structural b0 b1 blade)) }
{
    if same_particles(x, y, pinned) {
        if same3(t0, t1, t2) {
            if same3(e0, e1, structural) {
                if same3(b0, b1, b1) {
                    blade.len() == 4
                } else {
                    false
                }
            } else {
                false
            }
        } else {
            false
        }
    } else {
        false
    }
}

fn all_fit(
    x: &[i64],
    y: &[i64],
    pinned: &[usize],
    t0: &[usize],
    t1: &[usize],
    t2: &[usize],
    e0: &[usize],
    e1: &[usize],
    structural: &[usize],
    b0: &[usize],
    b1: &[usize],
    blade: &[i64],
) -> bool
    ensures { result ≡ fit_of (fields_of (wholes_before x y pinned t0 t1 t2 e0 e1 structural b0 b1 blade)) }
{
    if particles_fit(x, y, pinned) {
        if fits3(1024, 1024, 1024, t0, t1, t2) {
            if fits3(1024, 1024, 2, e0, e1, structural) {
                if fits3(1024, 1024, 1024, b0, b1, b1) {
                    whole_fit(blade)
                } else {
                    false
                }
            } else {
                false
            }
        } else {
            false
        }
    } else {
        false
    }
}

fn names_all(
    x: &[i64],
    y: &[i64],
    pinned: &[usize],
    t0: &[usize],
    t1: &[usize],
    t2: &[usize],
    e0: &[usize],
    e1: &[usize],
    structural: &[usize],
    b0: &[usize],
    b1: &[usize],
    blade: &[i64],
) -> bool
    requires { Even (fields_of (wholes_in x y pinned t0 t1 t2 e0 e1 structural b0 b1 blade)) }
    ensures { result ≡ names_ok (sheet_from (fields_of (wholes_before x y pinned t0 t1 t2 e0 e1 structural b0 b1 blade))) }
{
    let p = x.len();
    if names_in(true, p, t0, t1, t2) {
        if names_in(false, p, e0, e1, structural) {
            names_in(false, p, b0, b1, b1)
        } else {
            false
        }
    } else {
        false
    }
}

// What a writer answers with m bytes lent.
pub fn refusal(
    m: usize,
    x: &[i64],
    y: &[i64],
    pinned: &[usize],
    t0: &[usize],
    t1: &[usize],
    t2: &[usize],
    e0: &[usize],
    e1: &[usize],
    structural: &[usize],
    b0: &[usize],
    b1: &[usize],
    blade: &[i64],
) -> Result<(), Refusal>
    ensures { refusal_in result ≡ answer_of (fields_of (wholes_before x y pinned t0 t1 t2 e0 e1 structural b0 b1 blade)) m }
{
    if all_same(x, y, pinned, t0, t1, t2, e0, e1, structural, b0, b1, blade) {
        let c = Counts {
            particles: x.len(),
            triangles: t0.len(),
            edges: e0.len(),
            boundary: b0.len(),
        };
        if sheet::too_many(c) {
            return Err(Refusal::Size);
        }
        if all_fit(x, y, pinned, t0, t1, t2, e0, e1, structural, b0, b1, blade) {
            if names_all(x, y, pinned, t0, t1, t2, e0, e1, structural, b0, b1, blade) {
                if sheet::byte_len(c) <= m {
                    Ok(())
                } else {
                    Err(Refusal::Sheet)
                }
            } else {
                Err(Refusal::Name)
            }
        } else {
            Err(Refusal::Number)
        }
    } else {
        Err(Refusal::Size)
    }
}

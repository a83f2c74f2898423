// Bit fields in bytes, most significant bit first: read, written, and rows and columns of them.
#![tactic(auto)]

ghost use Rattle.std.specs.Prelude.{◌≡◌, [], ◌∷◌, ◌++◌, ℕ, ◌*◌, ◌^◌, ◌<◌, length, get_or, set, replicate, drop};
ghost use Rattle.std.proofs.lemmas.List.Edits.{sets};
ghost use Rattle.bits.specs.Bits.{bits, bits_of, field_at};
ghost use Rattle.bits.specs.Rows.{pack, write_rows, column_at, rows_of};
ghost use Rattle.bits.specs.Places.{Inside, Power, ColumnIn, RowIn, TableIn, FourIn};

// 2 to the k.
fn pow2(k: usize) -> usize
    requires { k < 12 }
    ensures { Power k result }
{
    1usize << k
}

// The bit at a place of the bytes' bits.
fn bit(s: &[u8], at: usize) -> usize
    requires { at < 8 * length s.now }
    ensures { (result ≡ get_or (bits_of s.now) at 0) × (result < 2) }
{
    let q = at / 8;
    let p = pow2(7 - at % 8);
    usize::from(s[q]) / p % 2
}

// The field of w bits at bit `at`.
pub fn field(s: &[u8], at: usize, w: usize) -> usize
    requires { Inside s.now at w }
    ensures { (result ≡ field_at (bits_of s.now) at w) × (result < 2 ^ w) }
{
    let mut r: usize = 0;
    for k in 0..w {
        r = r * 2 + bit(s, at + k);
    }
    r
}

// Sets the bit at a place of the bytes' bits.
fn put_bit(s: &mut [u8], at: usize, b: usize)
    requires { (at < 8 * length s.old) × (b < 2) }
    ensures { bits_of s.new ≡ set (bits_of s.old) at b }
{
    let q = at / 8;
    let p = pow2(7 - at % 8);
    let o = usize::from(s[q]);
    let n = (o / p / 2 * 2 + b) * p + o % p;
    s[q] = (n % 256) as u8;
}

// Sets the w bits at bit `at` to the low w bits of v.
pub fn put_field(s: &mut [u8], at: usize, w: usize, v: usize)
    requires { Inside s.old at w }
    ensures { bits_of s.new ≡ sets (bits_of s.old) at (bits w v) }
{
    for k in 0..w {
        put_bit(s, at + k, v / pow2(w - (k + 1)) % 2);
    }
}

// Reads n fields of w bits, the first at bit `at`, each `step` bits after the one before, to the front of a column.
pub fn read_column(s: &[u8], at: usize, step: usize, w: usize, n: usize, out: &mut [usize])
    requires { ColumnIn s.now at step w n out.old }
    ensures { out.new ≡ column_at (bits_of s.now) at step w n ++ drop n out.old }
{
    let mut pos = at;
    for i in 0..n {
        out[i] = field(s, pos, w);
        pos += step;
    }
}

// Writes a row of three fields at bit `at`.
pub fn put_row(
    s: &mut [u8],
    at: usize,
    w0: usize,
    w1: usize,
    w2: usize,
    a: usize,
    b: usize,
    c: usize,
)
    requires { RowIn s.old at w0 w1 w2 }
    ensures { bits_of s.new ≡ sets (bits_of s.old) at (pack (w0 ∷ w1 ∷ w2 ∷ []) (a ∷ b ∷ c ∷ [])) }
{
    put_field(s, at, w0, a);
    put_field(s, at + w0, w1, b);
    put_field(s, at + w0 + w1, w2, c);
}

// Writes the rows of three columns from bit `at` on.
pub fn put_rows(
    s: &mut [u8],
    at: usize,
    w0: usize,
    w1: usize,
    w2: usize,
    a: &[usize],
    b: &[usize],
    c: &[usize],
)
    requires { TableIn s.old at w0 w1 w2 a.now b.now c.now }
    ensures { bits_of s.new ≡ sets (bits_of s.old) at (write_rows (w0 ∷ w1 ∷ w2 ∷ [])
        (rows_of (a.now ∷ b.now ∷ c.now ∷ []) 0 (length a.now))) }
{
    let n = a.len();
    let step = w0 + w1 + w2;
    let mut pos = at;
    for i in 0..n {
        put_row(s, pos, w0, w1, w2, a[i], b[i], c[i]);
        pos += step;
    }
}

// Sets every byte to 0.
pub fn blank(s: &mut [u8])
    ensures { bits_of s.new ≡ replicate (8 * length s.old) 0 }
{
    s.fill(0);
}

// Writes a row of four fields at bit `at`.
pub fn put_four(s: &mut [u8], at: usize, w: usize, v: usize, a: usize, b: usize, c: usize, d: usize)
    requires { FourIn s.old at w v }
    ensures { bits_of s.new ≡ sets (bits_of s.old) at (pack (w ∷ w ∷ v ∷ v ∷ []) (a ∷ b ∷ c ∷ d ∷ [])) }
{
    put_row(s, at, w, w, v, a, b, c);
    put_field(s, at + w + w + v, v, d);
}

// Functions on one column and on a block of columns, of any type that is copied. Their proofs share the laws of proofs/.
#![tactic(auto)]

ghost use Rattle.std.specs.Prelude.{◌≡◌, ℕ, ◌+◌, ◌≤◌, ◌<◌, ◌*◌, length, take, drop};
ghost use Rattle.std.specs.Float.{nan};
ghost use Rattle.lists.specs.Lists.{padded, stands};
ghost use Rattle.float.specs.Numbers.{zero32};
ghost use Rattle.columns.specs.View.{NextMarked, Shifted};
ghost use Rattle.columns.specs.Block.{BlockKept, BlockShifted, BlockCopied, RowCopied, RowIn, RowTurned, block_of, row_at};

// The first place from `from` on and below n that the mask marks with 1; or n, if it marks none.
pub fn next_marked(mask: &[usize], from: usize, n: usize) -> usize
    requires { (from ≤ n) × (n ≤ length mask.now) }
    ensures { NextMarked mask.now from n result }
{
    for i in from..n {
        if mask[i] == 1 {
            return i;
        }
    }
    n
}

// Moves len places of s from `from` on to `to`, which is not behind them.
fn shift<T: Copy>(to: usize, from: usize, len: usize, s: &mut [T])
    requires { (to ≤ from) × (from + len ≤ length s.old) }
    ensures { (d : T) → Shifted d to from len s.old s.new }
{
    for i in 0..len {
        s[to + i] = s[from + i];
    }
}

// Copies src to the front of dst.
pub fn copy<T: Copy>(src: &[T], dst: &mut [T])
    requires { length src.now ≤ length dst.old }
    ensures { take (length src.now) dst.new ≡ src.now }
{
    dst[..src.len()].copy_from_slice(src);
}

// What a place holds that is not in use.
pub trait Zero: Copy {
    ghost zero: { Self };

    fn zero() -> Self
        ensures { result ≡ zero };
}

impl Zero for f32 {
    ghost zero = { zero32 };

    fn zero() -> f32 {
        0.0
    }
}

impl Zero for u8 {
    ghost zero = { 0 };

    fn zero() -> u8 {
        0
    }
}

impl Zero for u32 {
    ghost zero = { 0 };

    fn zero() -> u32 {
        0
    }
}

impl Zero for usize {
    ghost zero = { 0 };

    fn zero() -> usize {
        0
    }
}

// Puts 0 into the places of s from n on.
pub fn clear<T: Zero>(n: usize, s: &mut [T])
    requires { n ≤ length s.old }
    ensures { s.new ≡ padded (length s.old) T.zero (take n s.old) }
{
    let zero = T::zero();
    for i in n..s.len() {
        s[i] = zero;
    }
}

// Moves len rows from `from` on to `to`, in each column.
pub fn shift_block<T: Copy>(
    to: usize,
    from: usize,
    len: usize,
    width: usize,
    stride: usize,
    s: &mut [T],
)
    requires { (to ≤ from) × (from + len ≤ stride) × (width * stride ≤ length s.old) }
    ensures { (d : T) → BlockShifted d to from len width stride s.old s.new }
{
    let mut o: usize = 0;
    for c in 0..width {
        shift(o + to, o + from, len, s);
        o += stride;
    }
}

// Removes the marked places from the first n of each of width columns, and returns how many are left. What stands before the first marked place is not touched, and what stays between two is moved as a whole.
pub fn keep_block<T: Copy>(
    mask: &[usize],
    n: usize,
    width: usize,
    stride: usize,
    s: &mut [T],
) -> usize
    requires { (n ≤ stride) × (n ≤ length mask.now) × (width * stride ≤ length s.old) × (0 < width) }
    ensures { (d : T) → BlockKept d mask.now n width stride s.old s.new result }
{
    let mut r: usize = next_marked(mask, 0, n);
    let mut w: usize = r;
    // A turn passes a whole run of rows, so no range steps by it.
    while r < n {
        let a = r + 1;
        let b = next_marked(mask, a, n);
        let len = b - a;
        shift_block(w, a, len, width, stride, s);
        w += len;
        r = b;
    }
    w
}

// Copies the columns of src, of n places each, to the fronts of those of dst.
pub fn copy_block<T: Copy>(src: &[T], n: usize, width: usize, stride: usize, dst: &mut [T])
    requires { (n ≤ stride) × (width * n ≤ length src.now) × (width * stride ≤ length dst.old) }
    ensures { (d : T) → BlockCopied d n width stride src.now dst.new }
{
    let mut o: usize = 0;
    let mut a: usize = 0;
    for c in 0..width {
        let b = a + n;
        let e = o + stride;
        copy(&src[a..b], &mut dst[o..e]);
        a = b;
        o = e;
    }
}

// Puts 0 behind the first n places of each column, and behind the columns.
pub fn clear_block<T: Zero>(n: usize, width: usize, stride: usize, s: &mut [T])
    requires { (n ≤ stride) × (width * stride ≤ length s.old) }
    ensures { s.new ≡ block_of (length s.old) width stride T.zero (λ c. take n (drop (c * stride) s.old)) }
{
    let mut o: usize = 0;
    for c in 0..width {
        let e = o + stride;
        clear(n, &mut s[o..e]);
        o = e;
    }
    clear(o, s);
}

// Copies row v to row i in each column.
pub fn copy_row<T: Copy>(v: usize, i: usize, width: usize, stride: usize, s: &mut [T])
    requires { (v < i) × (i < stride) × (width * stride ≤ length s.old) }
    ensures { (d : T) → RowCopied d v i width stride s.old s.new }
{
    let mut o: usize = 0;
    for c in 0..width {
        s[o + i] = s[o + v];
        o += stride;
    }
}

// Does row i hold v, in the first k of columns of `size` places each?
pub fn row_holds(v: usize, i: usize, k: usize, size: usize, s: &[usize]) -> bool
    requires { RowIn k size i (length s.now) }
    ensures { result ≡ stands v (row_at k size s.now i) }
{
    let mut o: usize = 0;
    for c in 0..k {
        if s[o + i] == v {
            return true;
        }
        o += size;
    }
    false
}

// Puts w for v in row i of the first k columns.
pub fn turn_row(i: usize, v: usize, w: usize, k: usize, size: usize, s: &mut [usize])
    requires { RowIn k size i (length s.old) }
    ensures { RowTurned k size i v w s.old s.new }
{
    let mut o: usize = 0;
    for c in 0..k {
        if s[o + i] == v {
            s[o + i] = w;
        }
        o += size;
    }
}

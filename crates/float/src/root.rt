// The square root of an f32, correctly rounded, worked out with integers.
ghost use Rattle.std.specs.Prelude.{◌≡◌, ℕ, ◌+◌, ◌-◌, ◌*◌, ◌^◌, ◌≤◌, ◌<◌};
ghost use Rattle.float.specs.Root.{RootBits, RootOf, root_of};

// The largest r with r * r <= n, by halving the interval from r up to r + b in which it lies.
fn floor_root(n: u64) -> u64
    requires { n < 2 ^ 48 }
    ensures { (result * result ≤ n) × (n < (result + 1) * (result + 1)) }
{
    let mut r = 0u64;
    let mut b = 16777216u64;
    // The interval is halved by each turn.
    while 1 < b {
        b = (b + 1) / 2;
        let t = r + b;
        if t * t <= n {
            r = t;
        }
    }
    r
}

// The whole number nearest to the root of n, which is never halfway between two.
fn nearest_root(n: u64) -> u64
    requires { (2 ^ 46 ≤ n) × (n ≤ 2 ^ 48 - 2 ^ 24) }
    ensures { (2 ^ 23 ≤ result) × (result < 2 ^ 24) × ((2 * result - 1) * (2 * result - 1) < 4 * n) × (4 * n < (2 * result + 1) * (2 * result + 1)) }
{
    let r = floor_root(n);
    if r * r + r < n { r + 1 } else { r }
}

// The bits of the root of m * 2 ^ x units, m having at most 24 digits.
fn root_bits(m: u32, x: u32) -> u32
    requires { (0 < m) × (m < 2 ^ 24) × (x ≤ 253) }
    ensures { RootBits (m * 2 ^ x) result }
{
    // with all 24 digits in use: m * 2 ^ x * 2 ^ 149 is wide * 2 ^ e
    let s = u32::leading_zeros(m) - 8;
    let wide = (m << s) as u64;
    let e = x + 149 - s;
    // as 4 ^ k times a number of 47 or 48 digits
    if e % 2 == 1 {
        let q = nearest_root(wide * 8388608);
        ((e - 23) / 2) * 8388608 + (q as u32)
    } else {
        let q = nearest_root(wide * 16777216);
        ((e - 24) / 2) * 8388608 + (q as u32)
    }
}

// The IEEE 754 square root of x, rounded to the nearest f32, for a finite x that is not below zero.
pub fn root(x: f32) -> Option<f32>
    ensures { (result ≡ root_of x) × RootOf x result }
{
    if x != x {
        return None;
    }
    let b = f32::to_bits(x);
    if b % 2147483648 == 0 {
        return Some(x);
    }
    if 2139095040 <= b {
        return None;
    }
    let field = b / 8388608;
    let digits = b % 8388608;
    if field == 0 {
        return Some(f32::from_bits(root_bits(digits, 0)));
    }
    Some(f32::from_bits(root_bits(digits + 8388608, field - 1)))
}

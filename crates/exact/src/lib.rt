// Edition 2 of the blade test and of sides, by the signs of offsets. On whole coordinates an offset is exact, and so are the answers.
#![tactic(auto)]

ghost use Rattle.std.specs.Prelude.{◌≡◌};
ghost use Rattle.exact.specs.Exact.{whole?, whole_point_of, opposite};
ghost use Rattle.exact.specs.Signs.{crosses_by_signs, hit_by_signs_of, sign_in, sign_of_sum_of, across_in};

use blade::{Hit, Point};

// To the left of the blade's line, on it, or to its right.
#[derive(Clone, Copy)]
pub enum Sign {
    Left,
    On,
    Right,
}

// Is x a whole number from -1,024 to 1,024?
pub fn whole(x: f32) -> bool
    ensures { result ≡ whole? x }
{
    if x <= 1024.0 && x >= -1024.0 {
        let z = std::num::truncating_f32_to_i64(x);
        return (z as f32) == x;
    }
    false
}

// Are both coordinates?
pub fn whole_point(p: Point) -> bool
    ensures { result ≡ whole_point_of p }
{
    whole(p.x) && whole(p.y)
}

// To which side an offset tells.
pub fn sign_of(x: f32) -> Sign
    ensures { result ≡ sign_in x }
{
    if x > 0.0 {
        return Sign::Left;
    }
    if x < 0.0 {
        return Sign::Right;
    }
    Sign::On
}

// To which side the sum of three offsets tells, which is the side of a triangle's centroid. The third is not added: the sum of two fits, that of three might not.
pub fn sign_of_sum(a: f32, b: f32, c: f32) -> Sign
    ensures { result ≡ sign_of_sum_of a b c }
{
    let s = a + b;
    if s > -c {
        return Sign::Left;
    }
    if s < -c {
        return Sign::Right;
    }
    Sign::On
}

// One to the left, the other to the right?
pub fn opposed(a: Sign, b: Sign) -> bool
    ensures { result ≡ opposite a b }
{
    match a {
        Sign::Left => match b {
            Sign::Right => true,
            Sign::On => false,
            Sign::Left => false,
        },
        Sign::On => false,
        Sign::Right => match b {
            Sign::Left => true,
            Sign::On => false,
            Sign::Right => false,
        },
    }
}

// Neither both above 0 nor both below.
fn apart(a: f32, b: f32) -> bool
    ensures { result ≡ across_in a b }
{
    !(a > 0.0 && b > 0.0) && !(a < 0.0 && b < 0.0)
}

// Does the edge from p to q cross the blade?
fn crossing(b0: Point, b1: Point, p: Point, q: Point) -> bool
    ensures { result ≡ crosses_by_signs b0 b1 p q }
{
    let dp = blade::offset(b0, b1, p);
    let dq = blade::offset(b0, b1, q);
    apart(dp, dq) && (dp < dq || dq < dp) && apart(blade::offset(p, q, b0), blade::offset(p, q, b1))
}

// The blade test by signs: a hit carries the fraction and the point as edition 1 rounds them.
pub fn hit_by_signs(b0: Point, b1: Point, p: Point, q: Point) -> Hit
    ensures { result ≡ hit_by_signs_of b0 b1 p q }
{
    if !crossing(b0, b1, p, q) {
        return Hit::Miss;
    }
    let dp = blade::offset(b0, b1, p);
    let t = blade::clamp(dp / (dp - blade::offset(b0, b1, q)));
    Hit::Hit(t, p + (q - p) * t)
}

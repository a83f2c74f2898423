// Points, and the blade test: where an edge from p to q meets the blade from b0 to b1.
#![tactic(auto)]

ghost use Rattle.std.specs.Prelude.{◌≡◌, [], ◌∷◌};
ghost use Rattle.blade.specs.Points.{plus_of, minus_of, times_of, over_of, dot_of, centroid_of, lerp_of, length_of};
ghost use Rattle.blade.specs.Blade.{offset_of, clamp_high, clamp_low, hit_at_of, cross_at_of, blade_hit_of};

use std::ops::{Add, Div, Mul, Sub};

#[derive(Clone, Copy)]
pub struct Point {
    pub x: f32,
    pub y: f32,
}

// A miss, or a hit with the fraction of the edge at which it lies and the point that was tested. (No `Option`: docs/RULES.md, R18.5, has these cases.)
#[derive(Clone, Copy)]
pub enum Hit {
    Miss,
    Hit(f32, Point),
}

impl Add for Point {
    type Output = Point;

    ghost add_gives = { λ a b r. r ≡ plus_of a b };

    fn add(self, b: Point) -> Point {
        Point {
            x: self.x + b.x,
            y: self.y + b.y,
        }
    }
}

impl Sub for Point {
    type Output = Point;

    ghost sub_gives = { λ a b r. r ≡ minus_of a b };

    fn sub(self, b: Point) -> Point {
        Point {
            x: self.x - b.x,
            y: self.y - b.y,
        }
    }
}

impl Mul<f32> for Point {
    type Output = Point;

    ghost mul_gives = { λ p k r. r ≡ times_of p k };

    fn mul(self, k: f32) -> Point {
        Point {
            x: self.x * k,
            y: self.y * k,
        }
    }
}

impl Div<f32> for Point {
    type Output = Point;

    ghost div_gives = { λ p k r. r ≡ over_of p k };

    fn div(self, k: f32) -> Point {
        Point {
            x: self.x / k,
            y: self.y / k,
        }
    }
}

pub fn dot(a: Point, b: Point) -> f32
    ensures { result ≡ dot_of a b }
{
    a.x * b.x + a.y * b.y
}

// The rounded root of v's dot product with itself. A NaN where that is not finite: no accepted mesh has such a v.
pub fn length(v: Point) -> f32
    ensures { result ≡ length_of v }
{
    let r = float::root::root(dot(v, v));
    match r {
        Some(x) => x,
        None => 0.0 / 0.0,
    }
}

// p times (1 - t), plus q times t.
pub fn lerp(p: Point, q: Point, t: f32) -> Point
    ensures { result ≡ lerp_of p q t }
{
    p * (1.0 - t) + q * t
}

// The middle of a strap: its ends added, from 0, and divided by 2.
pub fn centroid_of_two(a: Point, b: Point) -> Point
    ensures { result ≡ centroid_of (a ∷ b ∷ []) }
{
    let start = Point { x: 0.0, y: 0.0 };
    (start + a + b) / 2.0
}

// The middle of a triangle: its corners added, from 0, and divided by 3.
pub fn centroid_of_three(a: Point, b: Point, c: Point) -> Point
    ensures { result ≡ centroid_of (a ∷ b ∷ c ∷ []) }
{
    let start = Point { x: 0.0, y: 0.0 };
    (start + a + b + c) / 3.0
}

// The offset of v from the blade's line: above 0 to the left of it.
pub fn offset(b0: Point, b1: Point, v: Point) -> f32
    ensures { result ≡ offset_of b0 b1 v }
{
    let d = b1 - b0;
    let n = Point { x: -d.y, y: d.x };
    dot(n, v - b0)
}

// t brought into the range from 0 to 1.
pub fn clamp(t: f32) -> f32
    ensures { result ≡ clamp_high (clamp_low t) }
{
    t.clamp(0.0, 1.0)
}

fn hit_at(d: Point, b0: Point, p: Point, w: Point, t: f32) -> Hit
    ensures { result ≡ hit_at_of d b0 p w t }
{
    let hit = Point {
        x: p.x + w.x * t,
        y: p.y + w.y * t,
    };
    let s = dot(hit - b0, d);
    if s >= 0.0 && s <= dot(d, d) {
        return Hit::Hit(t, hit);
    }
    Hit::Miss
}

fn cross_at(d: Point, b0: Point, p: Point, w: Point, dp: f32, dq: f32) -> Hit
    ensures { result ≡ cross_at_of d b0 p w dp dq }
{
    if dp * dq > 0.0 || dp == dq {
        return Hit::Miss;
    }
    hit_at(d, b0, p, w, clamp(dp / (dp - dq)))
}

pub fn blade_hit(b0: Point, b1: Point, p: Point, q: Point) -> Hit
    ensures { result ≡ blade_hit_of b0 b1 p q }
{
    let d = b1 - b0;
    let n = Point { x: -d.y, y: d.x };
    let dp = dot(n, p - b0);
    let dq = dot(n, q - b0);
    cross_at(d, b0, p, q - p, dp, dq)
}

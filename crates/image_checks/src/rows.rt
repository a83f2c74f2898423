// The tests of the rows of an image's lists, by its runs of words.
ghost use Rattle.std.specs.Prelude.{◌≡◌, [], ◌∷◌, ℕ, ◌+◌, ◌*◌, ◌≤◌, length};
ghost use Rattle.lists.specs.Lists.{all};
ghost use Rattle.model.specs.Valid.{particle_ok, edge_ok};
ghost use Rattle.mesh.specs.At.{particles_at, edges_at};
ghost use Rattle.mesh.specs.Widths.{point_columns, particle_words};
ghost use Rattle.judge.specs.Told.{VolumesTold};
ghost use Rattle.image.specs.Words.{words_from, numbers_from};
ghost use Rattle.image_checks.specs.Runs.{pairs_ok, threes_ok};

use crate::{places, runs};
use judge::{faults, tests};

// The numbers of n particles. (The fifth number is the mass, the sixth the inverse mass.)
pub fn particles_fit(bytes: &[u8], n: usize) -> bool
    requires { 4 * (4 + particle_words * n) ≤ length bytes.now }
    ensures { let s = bytes.now in
        result ≡ all particle_ok (particles_at n (numbers_from s 4 (point_columns * n)) (words_from s (4 + point_columns * n) (2 * n))) }
{
    let z = runs::in_range(bytes, 4, 5 * n);
    let z = tests::both(z, runs::finite(bytes, 4 + 5 * n, n));
    let z = tests::both(z, runs::in_range(bytes, 4 + 6 * n, 2 * n));
    tests::both(z, runs::flags(bytes, 4 + 9 * n, n))
}

// The numbers of n triangles, whose volumes stand from word `at` on, whatever their corners.
pub fn triangles_fit(bytes: &[u8], at: usize, n: usize) -> bool
    requires { 4 * (at + 2 * n) ≤ length bytes.now }
    ensures { VolumesTold n (numbers_from bytes.now at (2 * n)) result }
{
    let z = runs::volumes(bytes, at, n);
    tests::both(z, runs::in_range(bytes, at + n, n))
}

// The numbers of n edges, which stand from word `at` on.
pub fn edges_fit(bytes: &[u8], at: usize, n: usize) -> bool
    requires { 4 * (at + 8 * n) ≤ length bytes.now }
    ensures { let s = bytes.now in
        result ≡ all edge_ok (edges_at n (words_from s at (4 * n)) (numbers_from s (at + 4 * n) (4 * n))) }
{
    let z = runs::flags(bytes, at + 2 * n, 2 * n);
    let z = tests::both(z, runs::lengths(bytes, at + 4 * n, 2 * n));
    tests::both(z, runs::in_range(bytes, at + 6 * n, 2 * n))
}

// The corners of t triangles, which stand from word `at` on, among n particles.
pub fn corners_fit(bytes: &[u8], at: usize, n: usize, t: usize) -> bool
    requires { (4 * (at + 3 * t) ≤ length bytes.now) × (n ≤ 9223372036854775808) }
    ensures { result ≡ threes_ok n bytes.now at t }
{
    let second = at + t;
    let third = second + t;
    let room = faults::LIMIT - n;
    let mut fault: usize = 0;
    for i in 0..t {
        let a = image::word_at(bytes, at + i);
        let b = image::word_at(bytes, second + i);
        let c = image::word_at(bytes, third + i);
        fault = fault | places::three(n, room, a, b, c);
    }
    fault < faults::LIMIT
}

// The two ends in each of t rows, which stand from word `at` on, among n particles.
pub fn pairs_fit(bytes: &[u8], at: usize, n: usize, t: usize) -> bool
    requires { (4 * (at + 2 * t) ≤ length bytes.now) × (n ≤ 9223372036854775808) }
    ensures { result ≡ pairs_ok n bytes.now at t }
{
    let second = at + t;
    let room = faults::LIMIT - n;
    let mut fault: usize = 0;
    for i in 0..t {
        let a = image::word_at(bytes, at + i);
        let b = image::word_at(bytes, second + i);
        fault = fault | places::two(n, room, a, b);
    }
    fault < faults::LIMIT
}

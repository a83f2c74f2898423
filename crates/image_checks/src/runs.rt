// The tests of a run of words: all of them are asked, whatever the first of them answers, so that a machine asks several of them at a time.
ghost use Rattle.std.specs.Prelude.{◌≡◌, ℕ, ◌+◌, ◌*◌, ◌≤◌, length, ltb};
ghost use Rattle.float.specs.Ranges.{finite?, number?, volume?};
ghost use Rattle.model.specs.Valid.{flag?};
ghost use Rattle.judge.specs.Told.{length?};
ghost use Rattle.image_checks.specs.Runs.{words_ok, numbers_ok};

use crate::places;
use judge::{faults, tests};

// The n numbers from word `at` on are in range.
pub fn in_range(bytes: &[u8], at: usize, n: usize) -> bool
    requires { 4 * (at + n) ≤ length bytes.now }
    ensures { result ≡ numbers_ok number? bytes.now at n }
{
    let mut ok = true;
    for i in 0..n {
        let x = image::number_of(image::word_at(bytes, at + i));
        ok = tests::both(ok, float::range::in_range(x));
    }
    ok
}

// The n numbers from word `at` on are finite.
pub fn finite(bytes: &[u8], at: usize, n: usize) -> bool
    requires { 4 * (at + n) ≤ length bytes.now }
    ensures { result ≡ numbers_ok finite? bytes.now at n }
{
    let mut ok = true;
    for i in 0..n {
        let x = image::number_of(image::word_at(bytes, at + i));
        ok = tests::both(ok, float::range::finite(x));
    }
    ok
}

// The n numbers from word `at` on are in the range of a rest volume.
pub fn volumes(bytes: &[u8], at: usize, n: usize) -> bool
    requires { 4 * (at + n) ≤ length bytes.now }
    ensures { result ≡ numbers_ok volume? bytes.now at n }
{
    let mut ok = true;
    for i in 0..n {
        let x = image::number_of(image::word_at(bytes, at + i));
        ok = tests::both(ok, float::range::volume_in_range(x));
    }
    ok
}

// The n numbers from word `at` on are in the range of a rest length.
pub fn lengths(bytes: &[u8], at: usize, n: usize) -> bool
    requires { 4 * (at + n) ≤ length bytes.now }
    ensures { result ≡ numbers_ok length? bytes.now at n }
{
    let mut ok = true;
    for i in 0..n {
        let x = image::number_of(image::word_at(bytes, at + i));
        ok = tests::both(ok, tests::length_ok(x));
    }
    ok
}

// The n words from word `at` on are flags: so is the word of all their bits.
pub fn flags(bytes: &[u8], at: usize, n: usize) -> bool
    requires { 4 * (at + n) ≤ length bytes.now }
    ensures { result ≡ words_ok flag? bytes.now at n }
{
    let mut bits: usize = 0;
    for i in 0..n {
        bits = bits | image::word_at(bytes, at + i);
    }
    bits < 2
}

// The n words from word `at` on are below a bound.
pub fn below(bytes: &[u8], at: usize, bound: usize, n: usize) -> bool
    requires { (4 * (at + n) ≤ length bytes.now) × (bound ≤ 9223372036854775808) }
    ensures { result ≡ words_ok (λ (w : ℕ). ltb w bound) bytes.now at n }
{
    let room = faults::LIMIT - bound;
    let mut fault: usize = 0;
    for i in 0..n {
        fault = fault | places::one(bound, room, image::word_at(bytes, at + i));
    }
    fault < faults::LIMIT
}

// The tests of one column: all of its values are asked, whatever the first of them answers, so that a machine asks several of them at a time.
ghost use Rattle.std.specs.Prelude.{◌≡◌, ℕ, ◌+◌, ◌≤◌, length, nat_lt, slice_index};
ghost use Rattle.std.specs.Float.{nan};
ghost use Rattle.lists.specs.Lists.{all, up_to};
ghost use Rattle.float.specs.Ranges.{finite?, number?, volume?};
ghost use Rattle.model.specs.Valid.{flag?};
ghost use Rattle.judge.specs.Told.{column_ok, length?};

use crate::{faults, tests};

// The n numbers from place `at` on are in range.
pub fn in_range(s: &[f32], at: usize, n: usize) -> bool
    requires { at + n ≤ length s.now }
    ensures { result ≡ column_ok number? nan s.now at n }
{
    let mut ok = true;
    for i in 0..n {
        ok = tests::both(ok, float::range::in_range(s[at + i]));
    }
    ok
}

// The n numbers from place `at` on are finite.
pub fn finite(s: &[f32], at: usize, n: usize) -> bool
    requires { at + n ≤ length s.now }
    ensures { result ≡ column_ok finite? nan s.now at n }
{
    let mut ok = true;
    for i in 0..n {
        ok = tests::both(ok, float::range::finite(s[at + i]));
    }
    ok
}

// The n numbers from place `at` on are in the range of a rest volume.
pub fn volumes(s: &[f32], at: usize, n: usize) -> bool
    requires { at + n ≤ length s.now }
    ensures { result ≡ column_ok volume? nan s.now at n }
{
    let mut ok = true;
    for i in 0..n {
        ok = tests::both(ok, float::range::volume_in_range(s[at + i]));
    }
    ok
}

// The n numbers from place `at` on are in the range of a rest length.
pub fn lengths(s: &[f32], at: usize, n: usize) -> bool
    requires { at + n ≤ length s.now }
    ensures { result ≡ column_ok length? nan s.now at n }
{
    let mut ok = true;
    for i in 0..n {
        ok = tests::both(ok, tests::length_ok(s[at + i]));
    }
    ok
}

// The n words from place `at` on are flags: so is the word of all their bits.
pub fn flags(s: &[usize], at: usize, n: usize) -> bool
    requires { at + n ≤ length s.now }
    ensures { result ≡ column_ok flag? 0 s.now at n }
{
    let mut bits: usize = 0;
    for i in 0..n {
        bits = bits | s[at + i];
    }
    bits < 2
}

// The first n words are below a bound.
pub fn below(s: &[usize], bound: usize, n: usize) -> bool
    requires { (n ≤ length s.now) × (bound ≤ 9223372036854775808) }
    ensures { result ≡ all (λ (k : ℕ). nat_lt (slice_index s.now k) bound) (up_to n) }
{
    let room = faults::LIMIT - bound;
    let mut fault: usize = 0;
    for i in 0..n {
        fault = fault | faults::index(bound, room, s[i]);
    }
    fault < faults::LIMIT
}

// Indices that are words of an image, told by words as judge::faults tells them. A word is below 2 ^ 32, so that its sum with the room tells of it alone: without the
// word's own bits beside it a machine takes several rows at a time.
ghost use Rattle.std.specs.Prelude.{◌≡◌, [], ◌∷◌, ◌+◌, ◌<◌, ltb};
ghost use Rattle.model.specs.Valid.{named};
ghost use Rattle.judge.specs.Told.{fine};

use judge::faults;

// One of n particles.
pub fn one(n: usize, room: usize, a: usize) -> usize
    requires { (n + room ≡ 9223372036854775808) × (a < 4294967296) }
    ensures { fine result ≡ ltb a n }
{
    a + room
}

// Two different ones of n particles.
pub fn two(n: usize, room: usize, a: usize, b: usize) -> usize
    requires { (n + room ≡ 9223372036854775808) × (a < 4294967296) }
    ensures { fine result ≡ named n (a ∷ b ∷ []) }
{
    one(n, room, a) | faults::other(n, room, a, b)
}

// Three different ones of n particles.
pub fn three(n: usize, room: usize, a: usize, b: usize, c: usize) -> usize
    requires { (n + room ≡ 9223372036854775808) × (a < 4294967296) }
    ensures { fine result ≡ named n (a ∷ b ∷ c ∷ []) }
{
    two(n, room, a, b) | faults::other(n, room, a, c) | faults::differ(b, c)
}

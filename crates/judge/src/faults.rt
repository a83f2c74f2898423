// Indices told by words: a word below 2 ^ 63 says that they are as they should be. So the word of all bits of such words tells of all rows, and a machine that compares
// few words at a time joins the bits of several. Each test is given the number n of particles, and the room that n leaves below 2 ^ 63: an index and the room make a
// sum of 2 ^ 63 or more where the index is not below n.
ghost use Rattle.std.specs.Prelude.{◌≡◌, ◌+◌, ◌%◌, ◌^◌, ◌<◌, not, ◌&&◌, [], ◌∷◌, ◌==◌, bit_xor, nat_lt};
ghost use Rattle.model.specs.Valid.{named};
ghost use Rattle.judge.specs.Told.{fine};

// The least word of a fault: 2 ^ 63.
pub const LIMIT: usize = 9223372036854775808;

// One of n particles. (The sum wraps only for indices that are faults by themselves.)
pub fn index(n: usize, room: usize, a: usize) -> usize
    requires { n + room ≡ 9223372036854775808 }
    ensures { fine result ≡ nat_lt a n }
{
    a | std::num::wrapping_add_usize(a, room)
}

// Two indices that differ: the bits in which they do are a number from 1 on, and 1 less is no fault. (Of none it wraps.)
pub fn differ(a: usize, b: usize) -> usize
    ensures { result ≡ (bit_xor a b + 18446744073709551615) % 2 ^ 64 }
{
    std::num::wrapping_add_usize(a ^ b, 18446744073709551615)
}

// One of n particles that is another than a, where a is one of them.
pub fn other(n: usize, room: usize, a: usize, b: usize) -> usize
    requires { n + room ≡ 9223372036854775808 }
    ensures { a < n → fine result ≡ (nat_lt b n && not (b == a)) }
{
    std::num::wrapping_add_usize(b, room) | differ(a, b)
}

// Two different ones of n particles.
pub fn two(n: usize, room: usize, a: usize, b: usize) -> usize
    requires { n + room ≡ 9223372036854775808 }
    ensures { fine result ≡ named n (a ∷ b ∷ []) }
{
    index(n, room, a) | other(n, room, a, b)
}

// Three different ones of n particles.
pub fn three(n: usize, room: usize, a: usize, b: usize, c: usize) -> usize
    requires { n + room ≡ 9223372036854775808 }
    ensures { fine result ≡ named n (a ∷ b ∷ c ∷ []) }
{
    two(n, room, a, b) | other(n, room, a, c) | differ(b, c)
}

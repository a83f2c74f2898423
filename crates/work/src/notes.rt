// The entries of a log, six words each. A word is 32 bits wide: particles are few, and a fraction is told by the bits of an f32.
ghost use Rattle.std.specs.Prelude.{◌≡◌, ◌+◌, ◌/◌, ◌<◌, [], ◌∷◌, ◌++◌, length};
ghost use Rattle.std.specs.Float.{binary32};
ghost use Rattle.std.specs.Float.Ieee.{to_bits};
ghost use Rattle.mesh.specs.Log.{log_at};
ghost use Rattle.mesh.specs.Widths.{entry_words};

// The bits of a number.
pub fn bits_of(x: f32) -> u32
    ensures { result ≡ to_bits binary32 x }
{
    if x != x {
        return 2143289344;
    }
    f32::to_bits(x)
}

// Writes the six words of an entry behind the n that are there.
pub fn note(n: usize, kind: u32, a: u32, b: u32, p: u32, q: u32, t: u32, log: &mut [u32])
    requires { n < length log.old / entry_words }
    ensures { log_at (n + 1) log.new ≡ log_at n log.old ++
        (record { kind = kind; a = a; b = b; p = p; q = q; t = t } ∷ []) }
{
    let o = 6 * n;
    log[o] = kind;
    log[o + 1] = a;
    log[o + 2] = b;
    log[o + 3] = p;
    log[o + 4] = q;
    log[o + 5] = t;
}

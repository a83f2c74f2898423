// The larger of two numbers.
ghost use Rattle.std.specs.Prelude.{◌≡◌};
ghost use Rattle.float.specs.Numbers.{max_of};

// b where a is below it, else a. (The library's `max` does not say which of two zeros it gives, and passes over a NaN.)
pub fn larger(a: f32, b: f32) -> f32
    ensures { result ≡ max_of a b }
{
    if a < b { b } else { a }
}

// The inverse of a mass.
ghost use Rattle.std.specs.Prelude.{◌≡◌};
ghost use Rattle.float.specs.Numbers.{inv_of};

// 0 from -1e-20 to 1e-20, else 1 divided by x.
pub fn inv(x: f32) -> f32
    ensures { result ≡ inv_of x }
{
    if x >= -1e-20 {
        if x <= 1e-20 {
            return 0.0;
        }
    }
    1.0 / x
}

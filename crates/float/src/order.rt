// The total order of IEEE 754 on f32.
ghost use Rattle.std.specs.Prelude.{◌≡◌};
ghost use Rattle.float.specs.Order.{total_cmp_of};

use std::cmp::Ordering;

// None where one is a NaN.
pub fn total_cmp(a: f32, b: f32) -> Option<Ordering>
    ensures { result ≡ total_cmp_of a b }
{
    if a != a || b != b {
        return None;
    }
    Some(a.total_cmp(&b))
}

// Tests of the arguments that stand beside a mesh.
ghost use Rattle.std.specs.Prelude.{◌≡◌, ◌&&◌, eqb, ltb, length};
ghost use Rattle.lists.specs.Lists.{all};
ghost use Rattle.model.specs.Calls.{strictly, point_ok, fraction_ok};
ghost use Rattle.arguments.specs.Beside.{with_numbers_of};

use blade::Point;
use judge::tests;
use mesh::refusals::Refusal;
use refusal_numbers::Tells;

// Are both numbers of a point in range?
pub fn point_fits(p: Point) -> bool
    ensures { result ≡ point_ok p }
{
    tests::both(float::range::in_range(p.x), float::range::in_range(p.y))
}

// Is an insertion fraction in its range, from 0 to 0.5?
pub fn fraction_fits(f: f32) -> bool
    ensures { result ≡ fraction_ok f }
{
    tests::both(0.0 <= f, f <= 0.5)
}

// The fault of a mesh and of the numbers beside it: bad ones refuse with 2, behind 1 and before 3.
pub fn with_numbers<F: Tells>(fault: F, ok: bool) -> F
    ensures { F.told result ≡ with_numbers_of (F.told fault) ok }
{
    if ok {
        return fault;
    }
    if fault.tell() == 1 {
        fault
    } else {
        F::refuse(Refusal::Number)
    }
}

// Is each number of a list below n?
pub fn all_below(n: usize, list: &[usize]) -> bool
    ensures { result ≡ all (λ x. ltb x n) list.now }
{
    for &x in list {
        if x >= n {
            return false;
        }
    }
    true
}

// Is each number of a list above the one before it?
pub fn rising(list: &[usize]) -> bool
    ensures { result ≡ strictly list.now }
{
    for i in 1..list.len() {
        if list[i] <= list[i - 1] {
            return false;
        }
    }
    true
}

// Does a list rise strictly, and is each of its numbers below n?
pub fn rising_below(list: &[usize], n: usize) -> bool
    ensures { result ≡ (strictly list.now && all (λ x. ltb x n) list.now) }
{
    tests::both(rising(list), all_below(n, list))
}

// Is v one of n particles, and is there a side, 0 or 1, for each of the elements of a fan?
pub fn sides_fit(v: usize, n: usize, sides: &[usize], fan: usize) -> bool
    ensures { result ≡ (ltb v n && all (λ s. ltb s 2) sides.now && eqb (length sides.now) fan) }
{
    let z = tests::both(v < n, all_below(2, sides));
    tests::both(z, sides.len() == fan)
}

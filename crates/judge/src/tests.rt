// The tests of one number and of one row of indices, and of one list by its sizes.
ghost use Rattle.std.specs.Prelude.{◌≡◌, ◌/◌, ◌%◌, ◌&&◌, [], ◌∷◌};
ghost use Rattle.model.specs.Valid.{named};
ghost use Rattle.mesh.specs.Given.{list_fits_of, lengths_fit};
ghost use Rattle.mesh.specs.Refused.{number_of, refusal_in};
ghost use Rattle.judge.specs.Checks.{then_check};
ghost use Rattle.judge.specs.Told.{length?};

use mesh::refusals::Refusal;

// Both tests hold.
pub fn both(a: bool, b: bool) -> bool
    ensures { result ≡ (a && b) }
{
    if a { b } else { false }
}

// A test, and the refusal where it is false.
pub fn ensure(ok: bool, refusal: Refusal) -> Result<(), Refusal>
    ensures { refusal_in result ≡ then_check 0 ok (number_of refusal) }
{
    if ok { Ok(()) } else { Err(refusal) }
}

// Two blocks of one list: nothing is left over, and the columns are equally long, at most the limit.
fn list_fits(limit: usize, over_a: usize, a: usize, over_b: usize, b: usize) -> bool
    ensures { result ≡ list_fits_of limit over_a a over_b b }
{
    let z = both(over_a == 0, over_b == 0);
    let z = both(z, a == b);
    both(z, a <= limit)
}

// The sizes of an input, from the lengths of its seven blocks.
pub fn sizes_fit(
    lp: usize,
    lr: usize,
    lc: usize,
    lv: usize,
    le: usize,
    ll: usize,
    lo: usize,
) -> bool
    ensures { result ≡ lengths_fit lp lr lc lv le ll lo }
{
    let z = list_fits(
        mesh::PARTICLES,
        lp % mesh::POINT_COLUMNS,
        lp / mesh::POINT_COLUMNS,
        lr % mesh::ROOT_COLUMNS,
        lr / mesh::ROOT_COLUMNS,
    );
    let z = both(
        z,
        list_fits(
            mesh::TRIANGLES,
            lc % mesh::CORNER_COLUMNS,
            lc / mesh::CORNER_COLUMNS,
            lv % mesh::VOLUME_COLUMNS,
            lv / mesh::VOLUME_COLUMNS,
        ),
    );
    let z = both(
        z,
        list_fits(
            mesh::EDGES,
            le % mesh::END_COLUMNS,
            le / mesh::END_COLUMNS,
            ll % mesh::LENGTH_COLUMNS,
            ll / mesh::LENGTH_COLUMNS,
        ),
    );
    both(
        z,
        list_fits(
            mesh::BOUNDARY,
            lo % mesh::SIDE_COLUMNS,
            lo / mesh::SIDE_COLUMNS,
            0,
            lo / mesh::SIDE_COLUMNS,
        ),
    )
}

// A rest length: in range, and not below zero.
pub fn length_ok(x: f32) -> bool
    ensures { result ≡ length? x }
{
    both(float::range::in_range(x), float::range::not_below_zero(x))
}

// Two different ones of n particles.
pub fn two_named(n: usize, a: usize, b: usize) -> bool
    ensures { result ≡ named n (a ∷ b ∷ []) }
{
    let z = both(a < n, b != a);
    both(z, b < n)
}

// Three different ones of n particles.
pub fn three_named(n: usize, a: usize, b: usize, c: usize) -> bool
    ensures { result ≡ named n (a ∷ b ∷ c ∷ []) }
{
    let z = both(a < n, b != a);
    let z = both(z, c != a);
    both(z, two_named(n, b, c))
}

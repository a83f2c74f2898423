// A fan's elements: which of them are neighbours. (Their groups: crate fan_groups.)
#![tactic(auto)]

ghost use Rattle.std.specs.Prelude.{◌≡◌, ℕ, ◌*◌, ◌<◌, length, get_or};
ghost use Rattle.lists.specs.Lists.{stands};
ghost use Rattle.fan.specs.Fan.{fan, shared_others_of, near_test};

// Does x stand in b?
pub fn stands_in(x: usize, b: &[usize]) -> bool
    ensures { result ≡ stands x b.now }
{
    b.contains(&x)
}

// How many of a, other than v, stand in b.
pub fn shared_others(a: &[usize], b: &[usize], v: usize) -> usize
    ensures { result ≡ shared_others_of v a.now b.now }
{
    let mut count: usize = 0;
    for &x in a {
        if x != v {
            if stands_in(x, b) {
                count += 1;
            }
        }
    }
    count
}

// Are the elements i and j neighbours? (That i is below j is the caller's.)
pub fn near(
    verts: &[usize],
    k: usize,
    v: usize,
    needed: usize,
    sides: &[usize],
    i: usize,
    j: usize,
) -> bool
    requires verts_len { length verts.now ≡ length sides.now * k }
    requires i_in_bounds { (i < length sides.now) × (j < length sides.now) }
    ensures { result ≡ near_test (fan verts.now k v needed sides.now) i j }
{
    if sides[i] != sides[j] {
        return false;
    }
    let a = i * k;
    let ae = a + k;
    let b = j * k;
    let be = b + k;
    needed <= shared_others(&verts[a..ae], &verts[b..be], v)
}

// Each place its own number.
pub fn own_numbers(table: &mut [usize])
    ensures { (a : ℕ) → a < length table.new → get_or table.new a 0 ≡ a }
{
    for (i, place) in table.iter_mut().enumerate() {
        *place = i;
    }
}

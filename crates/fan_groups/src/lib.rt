// The groups of a fan's elements: which of them a chain of neighbours joins, numbered by first appearance, all of side 0 before side 1.
#![tactic(auto)]

ghost use Rattle.std.specs.Prelude.{◌≡◌, ℕ, ◌+◌, ◌<◌, ◌≤◌, length, get_or};
ghost use Rattle.fan.specs.Fan.{fan};
ghost use Rattle.fan.specs.Calls.{Fits, Counted};
ghost use Rattle.fan.specs.Parts.{Turning, Turns};
ghost use Rattle.fan_groups.specs.Sides.{groups_on_of, Sided};

// Numbers the elements of one side, from a count. An element still to be numbered has its label plus the number of elements in its place; one that is its
// own label gets the next number, any other the number at its label, which was passed before.
fn number_side(sides: &[usize], side: usize, from: usize, table: &mut [usize]) -> usize
    requires turning { Turning sides.now side table.old from }
    requires from_in_bounds { from ≤ length sides.now }
    ensures turns { Turns sides.now side table.old from (side + 1) 0 table.new result }
    ensures upper_bound { result ≤ from + length sides.now }
{
    let n = sides.len();
    let mut count = from;
    for i in 0..n {
        if sides[i] == side {
            let label = table[i] - n;
            if label == i {
                table[i] = count;
                count += 1;
            } else {
                let g = table[label];
                table[i] = g;
            }
        }
    }
    count
}

// How many groups the elements of a side are, where no corner need be shared.
fn groups_on(side: usize, sides: &[usize]) -> usize
    ensures { result ≡ groups_on_of side sides.now }
{
    if fan::stands_in(side, sides) {
        return 1;
    }
    0
}

// The groups where no corner need be shared, and how many there are: the elements of a side are one group.
fn groups_by_side(sides: &[usize], groups: &mut [usize]) -> usize
    requires { (length groups.old ≡ length sides.now) × ((i : ℕ) → i < length sides.now → get_or sides.now i 0 < 2) }
    ensures { Sided sides.now groups.new result }
{
    let low = groups_on(0, sides);
    for i in 0..sides.len() {
        groups[i] = sides[i] * low;
    }
    low + groups_on(1, sides)
}

// The groups of a fan: the element i has the vertices verts[i * k .. i * k + k] and lies on the side sides[i], 0 or 1. Returns how many groups there are.
// The labels are spread in the table of the groups, and numbered in place, those of side 0 first.
pub fn groups_of(
    verts: &[usize],
    k: usize,
    v: usize,
    needed: usize,
    sides: &[usize],
    groups: &mut [usize],
) -> usize
    requires { Fits verts.now k sides.now groups.old }
    ensures { Counted (fan verts.now k v needed sides.now) groups.new result }
{
    if needed == 0 {
        return groups_by_side(sides, groups);
    }
    fan_spread::spread_labels(verts, k, v, needed, sides, groups);
    let low = number_side(sides, 0, 0, groups);
    number_side(sides, 1, low, groups)
}

// A number put into a rising list, unless it is there.
ghost use Rattle.std.specs.Prelude.{◌<◌, ◌≤◌, length};
ghost use Rattle.straddling.specs.Putting.{PlaceFor, InsertedAt, PutRoom, RisingPut};

// The place behind the last of the r numbers that is at most i. It is sought from the end: the edges at a particle are met rising.
fn place_for(i: usize, r: usize, list: &[usize]) -> usize
    requires { r ≤ length list.now }
    ensures { PlaceFor i r list.now result }
{
    for at in (0..r).rev() {
        if list[at] <= i {
            return at + 1;
        }
    }
    0
}

// Writes i at place `at`; those of the r numbers that stand from there on move by one place, the last of them first.
fn insert_at(i: usize, at: usize, r: usize, list: &mut [usize])
    requires { (at ≤ r) × (r < length list.old) }
    ensures { InsertedAt i at r list.old list.new }
{
    list.copy_within(at..r, at + 1);
    list[at] = i;
}

// Puts i at its place among the r numbers of a rising list, unless it is there; returns how many there are.
pub fn put_rising(i: usize, r: usize, list: &mut [usize]) -> usize
    requires { PutRoom i r list.old }
    ensures { RisingPut i r list.old list.new result }
{
    let at = place_for(i, r, list);
    if at > 0 {
        if list[at - 1] == i {
            return r;
        }
    }
    insert_at(i, at, r, list);
    r + 1
}

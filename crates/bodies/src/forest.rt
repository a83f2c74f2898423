// Parent tables: each element names one that is not above it, its parent. A root names itself.
ghost use Rattle.std.specs.Prelude.{◌≡◌, ℕ, ◌<◌, length, get_or};
ghost use Rattle.bodies.specs.Forest.{Down, Kept, Found, Joined};

// The root of start. Each element on the way is given its parent's parent.
fn find(parent: &mut [usize], start: usize) -> usize
    requires { (start < length parent.old) × Down parent.old }
    ensures { Found parent.old start parent.new result }
{
    let mut i = start;
    // Each element tells its parent, up to the root.
    loop {
        let up = parent[i];
        if up == i {
            return i;
        }
        let next = parent[up];
        parent[i] = next;
        i = next;
    }
}

// i and j get one root, the smaller of their two.
pub fn join(parent: &mut [usize], i: usize, j: usize)
    requires { (i < length parent.old) × (j < length parent.old) × Down parent.old }
    ensures { Joined parent.old i j parent.new }
{
    let up = parent[i];
    let other = parent[j];
    if up == other {
        return;
    }
    if up == i {
        if other < i {
            parent[i] = other;
            return;
        }
    }
    let ri = find(parent, i);
    let rj = find(parent, j);
    if ri < rj {
        parent[rj] = ri;
    } else {
        parent[ri] = rj;
    }
}

// Each element is given its root.
pub fn flatten(parent: &mut [usize])
    requires { Down parent.old }
    ensures kept { Kept parent.old parent.new }
    ensures flat { (a : ℕ) → a < length parent.old → get_or parent.new (get_or parent.new a 0) 0
        ≡ get_or parent.new a 0 }
{
    for i in 0..parent.len() {
        let up = parent[i];
        let next = parent[up];
        parent[i] = next;
    }
}

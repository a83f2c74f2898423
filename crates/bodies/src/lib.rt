// Bodies, which one shared particle holds together: the lowest particle of each particle's body, and which particles the elements of a table hold.
#![tactic(auto)]

pub mod forest;

ghost use Rattle.std.specs.Prelude.{◌≡◌, ℕ, ◌+◌, ◌*◌, ◌<◌, ◌≤◌, length, get_or};
ghost use Rattle.bodies.specs.Bodies.{Corners, BodyRoots, UsedMarked};
ghost use Rattle.bodies.specs.Tables.{Link, Tied, CornerStep};

// Joins each further corner of element i to the first, unless the two have one parent already.
fn join_corners(n: usize, k: usize, i: usize, verts: &[usize], parent: &mut [usize])
    requires corners { Corners n k verts.now (length parent.old) }
    requires corner_step { CornerStep n k i verts.now parent.old }
    ensures { Tied (Link k verts.now ((i + 1) * k)) parent.new }
{
    let at = i * k;
    let first = verts[at];
    for j in 1..k {
        let place = at + j;
        let other = verts[place];
        if parent[first] != parent[other] {
            forest::join(parent, first, other);
        }
    }
}

// Joins the corners of each element, and no more.
fn join_each(n: usize, k: usize, verts: &[usize], parent: &mut [usize])
    requires { Corners n k verts.now (length parent.old) }
    ensures { Tied (Link k verts.now (n * k)) parent.new }
{
    fan::own_numbers(parent);
    for i in 0..n {
        join_corners(n, k, i, verts, parent);
    }
}

// Gives each particle the lowest particle of its body. The element i has the corners verts[i * k .. i * k + k].
pub fn join_elements(n: usize, k: usize, verts: &[usize], parent: &mut [usize])
    requires { Corners n k verts.now (length parent.old) }
    ensures { BodyRoots n k verts.now parent.new }
{
    join_each(n, k, verts, parent);
    forest::flatten(parent);
}

// Marks each particle that some element holds, and no other.
pub fn mark_used(n: usize, k: usize, verts: &[usize], used: &mut [usize])
    requires { Corners n k verts.now (length used.old) }
    ensures { UsedMarked n k verts.now used.new }
{
    used.fill(0);
    let total = n * k;
    for t in 0..total {
        let x = verts[t];
        used[x] = 1;
    }
}

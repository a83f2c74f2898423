// The untouched neighbours of an element of a fan, reached by its label: among all elements, or along chains of corners.
#![tactic(auto)]

ghost use Rattle.std.specs.Prelude.{◌≡◌, ◌+◌, ◌*◌, ◌<◌, length};
ghost use Rattle.fan.specs.Fan.{fan};
ghost use Rattle.fan_reach.specs.Spread.{beside_test, Reached, Reaching, Touching};
ghost use Rattle.fan_reach.specs.Corners.{LinkedFrom, Lent, Holds};

// Reaches the untouched neighbours below a, which has the label. (None is as low as the label.)
fn reach_below(
    verts: &[usize],
    k: usize,
    v: usize,
    needed: usize,
    sides: &[usize],
    label: usize,
    a: usize,
    table: &mut [usize],
)
    requires verts_len { length verts.now ≡ length sides.now * k }
    requires reached { Reached (fan verts.now k v needed sides.now) label a table.old }
    ensures { Reaching (fan verts.now k v needed sides.now) label a table.old table.new
        (a + 1) }
{
    for j in label + 1..a {
        if table[j] == j {
            if fan::near(verts, k, v, needed, sides, j, a) {
                table[j] = label;
            }
        }
    }
}

// The same above a.
fn reach_above(
    verts: &[usize],
    k: usize,
    v: usize,
    needed: usize,
    sides: &[usize],
    label: usize,
    a: usize,
    table: &mut [usize],
)
    requires verts_len { length verts.now ≡ length sides.now * k }
    requires reaching { Reaching (fan verts.now k v needed sides.now) label a table.old table.old (a + 1) }
    ensures { Reaching (fan verts.now k v needed sides.now) label a table.old table.new
        (length sides.now) }
{
    for j in a + 1..sides.len() {
        if table[j] == j {
            if fan::near(verts, k, v, needed, sides, a, j) {
                table[j] = label;
            }
        }
    }
}

// Are the two elements neighbours, in whichever order?
fn beside(
    verts: &[usize],
    k: usize,
    v: usize,
    needed: usize,
    sides: &[usize],
    a: usize,
    j: usize,
) -> bool
    requires verts_len { length verts.now ≡ length sides.now * k }
    requires a_in_bounds { (a < length sides.now) × (j < length sides.now) }
    ensures { result ≡ beside_test (fan verts.now k v needed sides.now) a j }
{
    if a < j {
        return fan::near(verts, k, v, needed, sides, a, j);
    }
    fan::near(verts, k, v, needed, sides, j, a)
}

// Reaches j, where it is an untouched neighbour of a, which has the label. (None is as low as the label.)
fn reach_one(
    verts: &[usize],
    k: usize,
    v: usize,
    needed: usize,
    sides: &[usize],
    label: usize,
    a: usize,
    j: usize,
    table: &mut [usize],
)
    requires verts_len { (length verts.now ≡ length sides.now * k) × (j < length sides.now) }
    requires reached { Reached (fan verts.now k v needed sides.now) label a table.old }
    ensures { Touching (fan verts.now k v needed sides.now) label a table.old table.new
        (λ b. b ≡ j) }
{
    if label < j {
        if table[j] == j {
            if beside(verts, k, v, needed, sides, a, j) {
                table[j] = label;
            }
        }
    }
}

// Links the corners' places in chains, by the last six bits of their particles: heads[b] is the first place of chain b, nexts[p] the one behind p in its chain.
// A number that is no place ends a chain. The last place is linked first, so that a chain rises.
pub fn link_corners(verts: &[usize], heads: &mut [u16], nexts: &mut [u16])
    requires { LinkedFrom verts.now heads.old nexts.old (length verts.now) }
    ensures { LinkedFrom verts.now heads.new nexts.new 0 }
{
    for p in (0..verts.len()).rev() {
        let b = verts[p] % 64;
        nexts[p] = heads[b];
        heads[b] = p as u16;
    }
}

// Reaches the untouched neighbours of a that hold the particle x, along its chain.
fn reach_holders(
    verts: &[usize],
    k: usize,
    v: usize,
    needed: usize,
    sides: &[usize],
    heads: &[u16],
    nexts: &[u16],
    label: usize,
    a: usize,
    x: usize,
    table: &mut [usize],
)
    requires verts_len { (length verts.now ≡ length sides.now * k) × LinkedFrom verts.now heads.now nexts.now 0 }
    requires reached { Reached (fan verts.now k v needed sides.now) label a table.old }
    ensures { Touching (fan verts.now k v needed sides.now) label a table.old table.new
        (Holds (fan verts.now k v needed sides.now) x (length verts.now)) }
{
    let mut p = usize::from(heads[x % 64]);
    // A chain: each place tells the next, so there is no range to go over.
    while p < verts.len() {
        if verts[p] == x {
            reach_one(verts, k, v, needed, sides, label, a, p / k, table);
        }
        p = usize::from(nexts[p]);
    }
}

// Reaches the untouched neighbours of a, which has the label: each of them holds a particle of a besides v.
fn reach_linked(
    verts: &[usize],
    k: usize,
    v: usize,
    needed: usize,
    sides: &[usize],
    heads: &[u16],
    nexts: &[u16],
    label: usize,
    a: usize,
    table: &mut [usize],
)
    requires verts_len { (length verts.now ≡ length sides.now * k) × LinkedFrom verts.now heads.now nexts.now 0 × (0 < needed) }
    requires reached { Reached (fan verts.now k v needed sides.now) label a table.old }
    ensures { Reaching (fan verts.now k v needed sides.now) label a table.old table.new
        (length sides.now) }
{
    let first = a * k;
    for p in first..first + k {
        let x = verts[p];
        if x != v {
            reach_holders(verts, k, v, needed, sides, heads, nexts, label, a, x, table);
        }
    }
}

// Reaches the untouched neighbours of a: along chains where corners are linked, else among all elements.
pub fn reach_all(
    verts: &[usize],
    k: usize,
    v: usize,
    needed: usize,
    sides: &[usize],
    heads: &[u16],
    nexts: &[u16],
    label: usize,
    a: usize,
    table: &mut [usize],
)
    requires verts_len { (length verts.now ≡ length sides.now * k) × Lent (fan verts.now k v needed sides.now) heads.now nexts.now }
    requires reached { Reached (fan verts.now k v needed sides.now) label a table.old }
    ensures { Reaching (fan verts.now k v needed sides.now) label a table.old table.new
        (length sides.now) }
{
    if heads.len() == 64 {
        reach_linked(verts, k, v, needed, sides, heads, nexts, label, a, table);
    } else {
        reach_below(verts, k, v, needed, sides, label, a, table);
        reach_above(verts, k, v, needed, sides, label, a, table);
    }
}

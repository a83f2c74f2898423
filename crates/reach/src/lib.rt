// Whether each group of a fan reaches the minimum piece: a walk over the table of all elements, breadth first, that stops at the minimum.
#![tactic(auto)]

ghost use Rattle.std.specs.Prelude.{◌≡◌, ℕ, ◌+◌, ◌*◌, ◌<◌, ◌≤◌, length, get_or, leb, List, [], ◌∷◌};
ghost use Rattle.lists.specs.Lists.{stands};
ghost use Rattle.lists.specs.Labels.{labelled};
ghost use Rattle.fan.specs.Fan.{shared_others_of};
ghost use Rattle.model.specs.Pieces.{min_piece_of};
ghost use Rattle.reach.specs.Opens.{Opens};
ghost use Rattle.reach.specs.Walk.{row, facet_shared, touching, holds_row, seeds, reach_from, Rows, Lent, marked, Queued, Spread, Seeded};

// Does triangle j hold v?
pub fn triangle_holds(verts: &[usize], j: usize, v: usize) -> bool
    requires { j * 3 + 3 ≤ length verts.now }
    ensures { result ≡ stands v (row 3 verts.now j) }
{
    let t = j * 3;
    if verts[t] == v {
        return true;
    }
    if verts[t + 1] == v {
        return true;
    }
    verts[t + 2] == v
}

// Does row j hold v? (Three corners that are written out are looked at faster.)
fn holds(n: usize, k: usize, v: usize, verts: &[usize], j: usize) -> bool
    requires { Rows n k (length verts.now) × (j < n) }
    ensures { result ≡ holds_row k v verts.now j }
{
    if k == 3 {
        return triangle_holds(verts, j, v);
    }
    let a = j * k;
    let e = a + k;
    fan::stands_in(v, &verts[a..e])
}

// 1 if x is not v and triangle j holds it, else 0.
fn shares_corner(verts: &[usize], j: usize, v: usize, x: usize) -> usize
    requires { j * 3 + 3 ≤ length verts.now }
    ensures { result ≡ shared_others_of v (x ∷ []) (row 3 verts.now j) }
{
    if x == v {
        return 0;
    }
    if triangle_holds(verts, j, x) {
        return 1;
    }
    0
}

// Do two corners of triangle i, and neither of them v, stand in triangle j? Where the first two do not, the third is not looked at.
fn triangles_share(v: usize, verts: &[usize], i: usize, j: usize) -> bool
    requires { (i * 3 + 3 ≤ length verts.now) × (j * 3 + 3 ≤ length verts.now) }
    ensures { result ≡ facet_shared 3 v verts.now i j }
{
    let t = i * 3;
    let a = shares_corner(verts, j, v, verts[t]);
    let b = shares_corner(verts, j, v, verts[t + 1]);
    if a + b == 0 {
        return false;
    }
    let c = shares_corner(verts, j, v, verts[t + 2]);
    2 <= a + b + c
}

// Do all corners of row i but one, and none of them v, stand in row j?
fn shares_facet(n: usize, k: usize, v: usize, verts: &[usize], i: usize, j: usize) -> bool
    requires { Rows n k (length verts.now) × (i < n) × (j < n) }
    ensures { result ≡ facet_shared k v verts.now i j }
{
    if k == 3 {
        return triangles_share(v, verts, i, j);
    }
    let a = i * k;
    let ae = a + k;
    let b = j * k;
    let be = b + k;
    k - 1 <= fan::shared_others(&verts[a..ae], &verts[b..be], v)
}

// Do the rows i and j share a facet without v? The earlier row is looked up in the later.
fn touches(n: usize, k: usize, v: usize, verts: &[usize], i: usize, j: usize) -> bool
    requires { Rows n k (length verts.now) × (i < n) × (j < n) }
    ensures { result ≡ touching k v verts.now i j }
{
    if i < j {
        return shares_facet(n, k, v, verts, i, j);
    }
    shares_facet(n, k, v, verts, j, i)
}

// Takes the first n marks away.
fn clear(n: usize, seen: &mut [usize])
    requires { n ≤ length seen.old }
    ensures { (j : ℕ) → j < n → get_or seen.new j 0 ≡ 0 }
{
    seen[..n].fill(0);
}

// With no row marked, marks and queues the rows of the fan's group g: the fth row that holds v is the fan's fth element. Returns how many they are.
fn queue_group(
    n: usize,
    k: usize,
    v: usize,
    verts: &[usize],
    g: usize,
    groups: &[usize],
    seen: &mut [usize],
    queue: &mut [usize],
) -> usize
    requires { Lent n k v verts.now groups.now (length seen.old) (length queue.old) × ((j : ℕ) → j < n → get_or seen.old j 0
        ≡ 0) }
    ensures { Seeded n (seeds k v verts.now groups.now g) seen.new queue.new result }
{
    let mut end = 0;
    let mut f = 0;
    for j in 0..n {
        if holds(n, k, v, verts, j) {
            if groups[f] == g {
                seen[j] = 1;
                queue[end] = j;
                end += 1;
            }
            f += 1;
        }
    }
    end
}

// The queue of the fan's group g alone. Returns how many rows it has.
fn seed(
    n: usize,
    k: usize,
    v: usize,
    verts: &[usize],
    g: usize,
    groups: &[usize],
    seen: &mut [usize],
    queue: &mut [usize],
) -> usize
    requires { Lent n k v verts.now groups.now (length seen.old) (length queue.old) }
    ensures { Seeded n (seeds k v verts.now groups.now g) seen.new queue.new result }
{
    clear(n, seen);
    queue_group(n, k, v, verts, g, groups, seen, queue)
}

// Marks and queues every row not yet marked that touches row i. Returns the queue's new end.
fn spread(
    n: usize,
    k: usize,
    v: usize,
    verts: &[usize],
    i: usize,
    tail: usize,
    seen: &mut [usize],
    queue: &mut [usize],
) -> usize
    requires { Rows n k (length verts.now) × (i < n) × Queued n seen.old queue.old tail }
    ensures { Spread n (touching k v verts.now i) seen.old queue.old tail seen.new
        queue.new result }
{
    let mut end = tail;
    for j in 0..n {
        if seen[j] != 1 {
            if touches(n, k, v, verts, i, j) {
                seen[j] = 1;
                queue[end] = j;
                end += 1;
            }
        }
    }
    end
}

// Do the marked rows reach at least minimum rows? The walk stops as soon as it has so many.
fn reaches(
    n: usize,
    k: usize,
    v: usize,
    verts: &[usize],
    tail: usize,
    minimum: usize,
    seen: &mut [usize],
    queue: &mut [usize],
) -> bool
    requires { Rows n k (length verts.now) × Queued n seen.old queue.old tail }
    ensures { result ≡ leb minimum (reach_from (marked seen.old) n (labelled (touching k v verts.now) n)) }
{
    let mut end = tail;
    let mut head = 0;
    // The queue grows while it is read, so no range holds its end.
    while head < end {
        if minimum <= end {
            return true;
        }
        let i = queue[head];
        end = spread(n, k, v, verts, i, end, seen, queue);
        head += 1;
    }
    minimum <= end
}

// The minimum piece: a setting of 0 counts as 1.
fn min_piece(minimum: usize) -> usize
    ensures { result ≡ min_piece_of minimum }
{
    if minimum == 0 {
        return 1;
    }
    minimum
}

// Does each of the fan's groups reach the minimum piece across facets without v, through the whole body?
// The first n rows of verts are the corners of all elements, k to each; groups has a group for each that holds v, in their order.
pub fn opens_without_confetti(
    n: usize,
    k: usize,
    v: usize,
    verts: &[usize],
    groups: &[usize],
    count: usize,
    minimum: usize,
    seen: &mut [usize],
    queue: &mut [usize],
) -> bool
    requires { Lent n k v verts.now groups.now (length seen.old) (length queue.old) }
    ensures { Opens n k v verts.now groups.now count minimum result }
{
    let least = min_piece(minimum);
    for g in 0..count {
        let tail = seed(n, k, v, verts, g, groups, seen, queue);
        if !reaches(n, k, v, verts, tail, least, seen, queue) {
            return false;
        }
    }
    true
}

// Pieces counted by facets in chains: a triangle has three facets, two corners each, the lower and the higher; a strap has two, one corner each.
// Facets that have the same 3 * lower + higher stand in one chain. An element is joined to the last before it that has a facet of its own: the others that
// have it are joined to that one already. So the work grows with the number of facets, however many elements meet at a particle.

ghost use Rattle.std.specs.Prelude.{◌≡◌, ◌+◌, ◌*◌, ◌/◌, ◌<◌, ◌≤◌, length};
ghost use Rattle.pieces.specs.Counted.{SidesLent, PieceNumber};
ghost use Rattle.bodies.specs.Tables.{Tied};
ghost use Rattle.pieces.specs.Sides.{smaller, larger, tops, low_of, high_of, Sought, FacetFound, SameFacet, Sided, SideRoom, Putting, IsPut};

// The element of a place. (By a divisor that is written out it is found faster.)
fn element_of(place: usize, k: usize) -> usize
    requires { 1 ≤ k }
    ensures { result ≡ place / k }
{
    if k == 3 {
        return place / 3;
    }
    if k == 2 {
        return place / 2;
    }
    place / k
}

// 1 more than the place that has the facet looked for, whose lower corner is low, on the chain from first down, or 0 where none has.
fn find_facet(low: usize, first: usize, links: &[u16], lows: &[u16]) -> usize
    requires { Sought low first links.now lows.now }
    ensures { (S : Sought low first links.now lows.now) → FacetFound S.f S.g S.t result }
{
    let mut e = first;
    // A chain: each place tells the next, so there is no range to go over.
    while 0 < e {
        let s = e - 1;
        if usize::from(lows[s]) == low {
            return e;
        }
        e = usize::from(links[s]);
    }
    0
}

// The smaller of two numbers.
fn smaller_of(a: usize, b: usize) -> usize
    ensures { result ≡ smaller a b }
{
    if a < b {
        return a;
    }
    b
}

// The larger of two numbers.
fn larger_of(a: usize, b: usize) -> usize
    ensures { result ≡ larger a b }
{
    if a < b {
        return b;
    }
    a
}

// Puts the facet of place t, which has the corners x and y, into its chain, and joins its element to the last before it that has the same facet.
fn join_facet(
    k: usize,
    t: usize,
    i: usize,
    x: usize,
    y: usize,
    heads: &mut [u16],
    links: &mut [u16],
    lows: &mut [u16],
    parent: &mut [usize],
)
    requires { Putting k t i (smaller x y) (larger x y) heads.old links.old lows.old parent.old }
    ensures { IsPut k t i (smaller x y) (larger x y) heads.old links.old lows.old parent.old
        heads.new links.new lows.new parent.new }
{
    let low = smaller_of(x, y);
    let high = larger_of(x, y);
    let h = 3 * low + high;
    let first = heads[h];
    heads[h] = (t + 1) as u16;
    links[t] = first;
    lows[t] = low as u16;
    let e = find_facet(low, usize::from(first), links, lows);
    if 0 < e {
        let j = element_of(e - 1, k);
        bodies::forest::join(parent, i, j);
    }
}

// Joins triangle i to each before it that shares a facet with it.
fn join_triangle(
    verts: &[usize],
    i: usize,
    heads: &mut [u16],
    links: &mut [u16],
    lows: &mut [u16],
    parent: &mut [usize],
)
    requires { SideRoom (length parent.old) 3 verts.now (length heads.old) (length links.old) (length lows.old) (length parent.old)
        × (i < length parent.old) × Sided 3 verts.now heads.old links.old lows.old (i * 3) parent.old }
    ensures { Sided 3 verts.now heads.new links.new lows.new ((i + 1) * 3) parent.new }
{
    let t = i * 3;
    let a = verts[t];
    let b = verts[t + 1];
    let c = verts[t + 2];
    join_facet(3, t, i, a, b, heads, links, lows, parent);
    join_facet(3, t + 1, i, b, c, heads, links, lows, parent);
    join_facet(3, t + 2, i, c, a, heads, links, lows, parent);
}

// Joins strap i to each before it that shares a particle with it.
fn join_strap(
    verts: &[usize],
    i: usize,
    heads: &mut [u16],
    links: &mut [u16],
    lows: &mut [u16],
    parent: &mut [usize],
)
    requires { SideRoom (length parent.old) 2 verts.now (length heads.old) (length links.old) (length lows.old) (length parent.old)
        × (i < length parent.old) × Sided 2 verts.now heads.old links.old lows.old (i * 2) parent.old }
    ensures { Sided 2 verts.now heads.new links.new lows.new ((i + 1) * 2) parent.new }
{
    let t = i * 2;
    let a = verts[t];
    let b = verts[t + 1];
    join_facet(2, t, i, 0, a, heads, links, lows, parent);
    join_facet(2, t + 1, i, 0, b, heads, links, lows, parent);
}

// Joins all elements that share a facet, and no more.
fn join_sides(
    n: usize,
    k: usize,
    verts: &[usize],
    heads: &mut [u16],
    links: &mut [u16],
    lows: &mut [u16],
    parent: &mut [usize],
)
    requires { SidesLent n k verts.now heads.old (length links.old) (length lows.old) (length parent.old) }
    ensures { Tied (SameFacet k (low_of k verts.now) (high_of k verts.now) (n * k)) parent.new }
{
    fan::own_numbers(parent);
    for i in 0..n {
        if k == 3 {
            join_triangle(verts, i, heads, links, lows, parent);
        } else {
            join_strap(verts, i, heads, links, lows, parent);
        }
    }
}

// How many places are their own labels.
fn count_tops(labels: &[usize]) -> usize
    ensures { result ≡ length (tops labels.now) }
{
    let mut count: usize = 0;
    for i in 0..labels.len() {
        if labels[i] == i {
            count += 1;
        }
    }
    count
}

// How many pieces the elements have.
pub fn count_sides(
    n: usize,
    k: usize,
    verts: &[usize],
    heads: &mut [u16],
    links: &mut [u16],
    lows: &mut [u16],
    parent: &mut [usize],
) -> usize
    requires { SidesLent n k verts.now heads.old (length links.old) (length lows.old) (length parent.old) }
    ensures { PieceNumber n k verts.now result }
{
    join_sides(n, k, verts, heads, links, lows, parent);
    count_tops(parent)
}

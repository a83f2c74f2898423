// The corners of triangles linked by their names, so that the triangles that hold a side are found along a chain and not among all.
// Place q is corner q % 3 of triangle q / 3. A chain has the places whose names have the same last ten bits; it goes from the last place down.
ghost use Rattle.std.specs.Prelude.{◌≡◌, false, [], ◌∷◌, ◌*◌, ◌<◌, min, ltb, length};
ghost use Rattle.lists.specs.Lists.{pick};
ghost use Rattle.outline.specs.Outline.{holds};
ghost use Rattle.outline_tables.specs.Rows.{row3, Even};
ghost use Rattle.outline_tables.specs.Links.{chain_at, held_to, Chained, LinkRoom, Linked};

// The chain of place q.
fn chain_of(q: usize, a: &[usize], b: &[usize], c: &[usize]) -> usize
    requires { Even (length a.now) (length b.now) (length c.now) × (q < 3 * length a.now) }
    ensures { result ≡ chain_at a.now b.now c.now q }
{
    let i = q / 3;
    let corner = q % 3;
    if corner == 0 {
        return a[i] % 1024;
    }
    if corner == 1 {
        return b[i] % 1024;
    }
    c[i] % 1024
}

// Links the first q places: each to the one before it in its chain, 1 more than its number, or 0 where there is none. heads and sizes come with 0 in every place,
// and end with each chain's last place, as in a link, and with how many places it has.
pub fn link_corners(
    q: usize,
    a: &[usize],
    b: &[usize],
    c: &[usize],
    heads: &mut [u16],
    links: &mut [u16],
    sizes: &mut [u16],
)
    requires { LinkRoom (length a.now) (length b.now) (length c.now) q heads.old (length links.old) sizes.old }
    ensures { Chained (chain_at a.now b.now c.now) heads.new links.new q }
{
    for t in 0..q {
        let k = chain_of(t, a, b, c);
        links[t] = heads[k];
        heads[k] = (t + 1) as u16;
        sizes[k] += 1;
    }
}

// Does triangle j, if it is before t, hold both x and y?
fn holds_before(
    x: usize,
    y: usize,
    j: usize,
    t: usize,
    a: &[usize],
    b: &[usize],
    c: &[usize],
) -> bool
    requires { Even (length a.now) (length b.now) (length c.now) × (j < length a.now) }
    ensures { result ≡ pick (ltb j t) (holds (x ∷ y ∷ []) (row3 a.now b.now c.now j)) false }
{
    if j < t {
        return crate::holds_side(x, y, a[j], b[j], c[j]);
    }
    false
}

// How many of the first m triangles, whose corners are linked, hold both x and y: 0, 1, or 2 for more than one. The places in the chain of x are looked at, and a
// triangle that has two of them is counted once: they are next to each other.
fn holders_along(
    x: usize,
    y: usize,
    m: usize,
    a: &[usize],
    b: &[usize],
    c: &[usize],
    heads: &[u16],
    links: &[u16],
) -> usize
    requires { Linked a.now b.now c.now m heads.now links.now }
    ensures { result ≡ min 2 (held_to a.now b.now c.now x y m) }
{
    let mut n: usize = 0;
    let mut t = m;
    let mut e = usize::from(heads[x % 1024]);
    // A chain: each place tells the next, so there is no range to go over.
    while 0 < e {
        let s = e - 1;
        let j = s / 3;
        if holds_before(x, y, j, t, a, b, c) {
            if n == 1 {
                return 2;
            }
            n += 1;
        }
        t = j;
        e = usize::from(links[s]);
    }
    n
}

// The same, along the chain of x or of y: the one that has fewer places.
pub fn side_holders(
    x: usize,
    y: usize,
    m: usize,
    a: &[usize],
    b: &[usize],
    c: &[usize],
    heads: &[u16],
    links: &[u16],
    sizes: &[u16],
) -> usize
    requires { Linked a.now b.now c.now m heads.now links.now × (length sizes.now ≡ 1024) }
    ensures { result ≡ min 2 (held_to a.now b.now c.now x y m) }
{
    if sizes[y % 1024] < sizes[x % 1024] {
        return holders_along(y, x, m, a, b, c, heads, links);
    }
    holders_along(x, y, m, a, b, c, heads, links)
}

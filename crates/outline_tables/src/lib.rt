// The outline of triangles and straps, and a typed outline settled by it.
#![tactic(auto)]

mod chains;

ghost use Rattle.std.specs.Prelude.{◌≡◌, ◌&&◌, List, [], ◌∷◌, ◌++◌, ℕ, ◌+◌, ◌/◌, ◌^◌, ◌<◌, ◌≤◌, length, eqb};
ghost use Rattle.lists.specs.Lists.{pick, stands, any, sift};
ghost use Rattle.outline.specs.Outline.{holds, faces_of, single, same_pair, within, same_sides_of, settled, outline_of_triangles, outline_of_straps, outline_of};
ghost use Rattle.outline_tables.specs.Rows.{rows3, row3, sides_at, Even, Added, Listed, Held, SettledBy};
ghost use Rattle.outline_tables.specs.Links.{Linked};

// How many sides an outline has now, and whether it was replaced.
#[derive(Clone, Copy)]
pub struct Settled {
    pub count: usize,
    pub replaced: bool,
}

// Whether x is a corner of (a, b, c).
fn corner(x: usize, a: usize, b: usize, c: usize) -> bool
    ensures { result ≡ stands x (a ∷ b ∷ c ∷ []) }
{
    if a == x {
        return true;
    }
    if b == x {
        return true;
    }
    c == x
}

// Whether the triangle (a, b, c) holds both x and y.
fn holds_side(x: usize, y: usize, a: usize, b: usize, c: usize) -> bool
    ensures { result ≡ holds (x ∷ y ∷ []) (a ∷ b ∷ c ∷ []) }
{
    if corner(x, a, b, c) {
        corner(y, a, b, c)
    } else {
        false
    }
}

// Whether exactly one of the triangles holds both x and y. Of the first m the corners are linked; the others are looked at one by one.
fn single_side(
    x: usize,
    y: usize,
    a: &[usize],
    b: &[usize],
    c: &[usize],
    m: usize,
    heads: &[u16],
    links: &[u16],
    sizes: &[u16],
) -> bool
    requires { Linked a.now b.now c.now m heads.now links.now × (length sizes.now ≡ 1024) }
    ensures { result ≡ single (rows3 a.now b.now c.now) (x ∷ y ∷ []) }
{
    let mut n = chains::side_holders(x, y, m, a, b, c, heads, links, sizes);
    for i in m..a.len() {
        if holds_side(x, y, a[i], b[i], c[i]) {
            n += 1;
        }
    }
    n == 1
}

// Puts the side (x, y) behind the n sides of a block if asked to, and returns how many there are then. Without room it is only counted.
fn add_side(asked: bool, x: usize, y: usize, n: usize, outline: &mut [usize]) -> usize
    requires { n < 2 ^ 32 }
    ensures { Added (pick asked ((x ∷ y ∷ []) ∷ []) []) outline.old outline.new n result }
{
    if asked {
        let o = outline.len() / 2;
        if n < o {
            outline[n] = x;
            outline[o + n] = y;
        }
        return n + 1;
    }
    n
}

// Adds the faces of triangle i that no other triangle holds.
fn add_faces(
    i: usize,
    a: &[usize],
    b: &[usize],
    c: &[usize],
    m: usize,
    heads: &[u16],
    links: &[u16],
    sizes: &[u16],
    n: usize,
    outline: &mut [usize],
) -> usize
    requires { Linked a.now b.now c.now m heads.now links.now × (length sizes.now ≡ 1024) × (i < length a.now)
        × (n < 2 ^ 30) }
    ensures { Added (sift (single (rows3 a.now b.now c.now))
        (faces_of (row3 a.now b.now c.now i))) outline.old outline.new n result }
{
    let x = a[i];
    let y = b[i];
    let z = c[i];
    let xy = single_side(x, y, a, b, c, m, heads, links, sizes);
    let yz = single_side(y, z, a, b, c, m, heads, links, sizes);
    let zx = single_side(z, x, a, b, c, m, heads, links, sizes);
    let first = add_side(xy, x, y, n, outline);
    let second = add_side(yz, y, z, first, outline);
    add_side(zx, z, x, second, outline)
}

// n, or the most that it may be.
fn at_most(n: usize, most: usize) -> usize
    ensures { (result ≤ n) × (result ≤ most) }
{
    if n < most { n } else { most }
}

// Lists the outline of triangles, and returns how many sides it has. A block without room for them is left with some.
pub fn outline_triangles(a: &[usize], b: &[usize], c: &[usize], outline: &mut [usize]) -> usize
    requires { Even (length a.now) (length b.now) (length c.now) }
    ensures { Listed (outline_of_triangles (rows3 a.now b.now c.now)) outline.new result }
{
    let mut heads = [0u16; 1024];
    let mut links = [0u16; 3072];
    let mut sizes = [0u16; 1024];
    let m = at_most(a.len(), 1024);
    chains::link_corners(3 * m, a, b, c, &mut heads, &mut links, &mut sizes);
    let mut n: usize = 0;
    for i in 0..a.len() {
        n = add_faces(i, a, b, c, m, &heads, &links, &sizes, n, outline);
    }
    n
}

// Lists the structural edges, and returns how many there are.
pub fn outline_straps(a: &[usize], b: &[usize], c: &[usize], outline: &mut [usize]) -> usize
    requires { Even (length a.now) (length b.now) (length c.now) }
    ensures { Listed (outline_of_straps (rows3 a.now b.now c.now)) outline.new result }
{
    let mut n: usize = 0;
    for i in 0..a.len() {
        n = add_side(c[i] == 1, a[i], b[i], n, outline);
    }
    n
}

// Lists the outline of triangles, or of straps where there are no triangles, and returns how many sides it has.
pub fn list_outline(
    t0: &[usize],
    t1: &[usize],
    t2: &[usize],
    e0: &[usize],
    e1: &[usize],
    structural: &[usize],
    outline: &mut [usize],
) -> usize
    requires { Even (length t0.now) (length t1.now) (length t2.now)
        × Even (length e0.now) (length e1.now) (length structural.now) }
    ensures { Listed (outline_of (rows3 t0.now t1.now t2.now)
        (rows3 e0.now e1.now structural.now)) outline.new result }
{
    if t0.len() == 0 {
        return outline_straps(e0, e1, structural, outline);
    }
    outline_triangles(t0, t1, t2, outline)
}

// Whether x is u, and y is v.
fn both_same(x: usize, u: usize, y: usize, v: usize) -> bool
    ensures { result ≡ (eqb x u && eqb y v) }
{
    if x == u { y == v } else { false }
}

// Whether (x, y) and (u, v) are the same pair, in either order.
fn same_pair(x: usize, y: usize, u: usize, v: usize) -> bool
    ensures { result ≡ same_pair (x ∷ y ∷ []) (u ∷ v ∷ []) }
{
    if both_same(x, u, y, v) {
        return true;
    }
    both_same(x, v, y, u)
}

// Whether the pair (x, y) is among the first m sides of a block.
fn among(x: usize, y: usize, q: &[usize], m: usize) -> bool
    requires { m ≤ length q.now / 2 }
    ensures { result ≡ any (same_pair (x ∷ y ∷ [])) (sides_at m q.now) }
{
    let o = q.len() / 2;
    for i in 0..m {
        if same_pair(x, y, q[i], q[o + i]) {
            return true;
        }
    }
    false
}

// Whether each of the first n sides of the one block is among the first m of the other.
fn all_among(p: &[usize], n: usize, q: &[usize], m: usize) -> bool
    requires { Held n (length p.now) m (length q.now) }
    ensures { result ≡ within (sides_at n p.now) (sides_at m q.now) }
{
    let o = p.len() / 2;
    for i in 0..n {
        if !among(p[i], p[o + i], q, m) {
            return false;
        }
    }
    true
}

// Whether n sides of the one block and m of the other are the same set of pairs. Order, direction and repeats do not count.
pub fn same_sides(p: &[usize], n: usize, q: &[usize], m: usize) -> bool
    requires { Held n (length p.now) m (length q.now) }
    ensures { result ≡ same_sides_of (sides_at n p.now) (sides_at m q.now) }
{
    if all_among(p, n, q, m) {
        all_among(q, m, p, n)
    } else {
        false
    }
}

// Copies m sides to the front of another block.
pub fn copy_sides(own: &[usize], m: usize, outline: &mut [usize])
    requires { Held m (length own.now) m (length outline.old) × (m < 2 ^ 32) }
    ensures { sides_at m outline.new ≡ sides_at m own.now }
{
    let o = own.len() / 2;
    let mut i: usize = 0;
    // `add_side` counts the sides itself.
    while i < m {
        i = add_side(true, own[i], own[o + i], i, outline);
    }
}

// Settles a typed outline, n sides of a block, by the own one, m sides of another: it stays where it is the same set, else the own one takes its place.
pub fn settle(own: &[usize], m: usize, n: usize, outline: &mut [usize]) -> Settled
    requires { Held n (length outline.old) m (length own.now) × (m ≤ length outline.old / 2) × (m < 2 ^ 32) }
    ensures { SettledBy (sides_at n outline.old) (sides_at m own.now) outline.new result }
{
    if same_sides(outline, n, own, m) {
        return Settled {
            count: n,
            replaced: false,
        };
    }
    copy_sides(own, m, outline);
    Settled {
        count: m,
        replaced: true,
    }
}

// Families: a particle and its copies, as the log tells of them; and the pair of one each that now stands for a torn edge.
ghost use Rattle.std.specs.Prelude.{◌≡◌, ◌/◌, ◌<◌, ◌≤◌, ◌&&◌, eqb, length};
ghost use Rattle.mesh.specs.Log.{entry_row};
ghost use Rattle.mesh.specs.Widths.{end_columns, entry_words};
ghost use Rattle.tear.specs.Families.{joins_by, source_in, FamilyRoom, FamilyFound, JoinTold, MeetRoom, MeetTold, FirstMet, PairMet, CurrentRoom, FamiliesMet};

// Is entry i a copy whose source stands in a list?
fn has_source(i: usize, log: &[u32], list: &[usize]) -> bool
    requires { i < length log.now / entry_words }
    ensures { result ≡ source_in (entry_row log.now i) list.now }
{
    let o = 6 * i;
    if log[o] == 1 {
        return fan::stands_in(log[o + 2] as usize, list);
    }
    false
}

// A particle, and each logged copy whose source is one of its family so far; returns how many they are.
pub fn family(a: usize, l: usize, log: &[u32], found: &mut [usize]) -> usize
    requires { FamilyRoom l (length log.now) (length found.old) }
    ensures { FamilyFound a l log.now result found.new }
{
    found[0] = a;
    let mut r: usize = 1;
    for i in 0..l {
        if has_source(i, log, &found[..r]) {
            found[r] = log[6 * i + 1] as usize;
            r += 1;
        }
    }
    r
}

// Is a the same as x, and b as y?
fn same_ends(x: usize, y: usize, a: usize, b: usize) -> bool
    ensures { result ≡ eqb a x && eqb b y }
{
    if a == x {
        return b == y;
    }
    false
}

// Is the edge (a, b) between x and y, either way round?
fn joins(x: usize, y: usize, a: usize, b: usize) -> bool
    ensures { result ≡ joins_by x y a b }
{
    if same_ends(x, y, a, b) {
        return true;
    }
    same_ends(y, x, a, b)
}

// Is one of the first e edges between x and y?
fn joined(x: usize, y: usize, e: usize, ends: &[usize]) -> bool
    requires { e ≤ length ends.now / end_columns }
    ensures { JoinTold x y e ends.now result }
{
    let c = ends.len() / mesh::END_COLUMNS;
    for i in 0..e {
        if joins(x, y, ends[i], ends[c + i]) {
            return true;
        }
    }
    false
}

// Do x and y meet: in an element of the table, or else at one of the first e edges?
fn meets(
    in_element: bool,
    x: usize,
    y: usize,
    k: usize,
    n: usize,
    verts: &[usize],
    e: usize,
    ends: &[usize],
) -> bool
    requires { MeetRoom k n (length verts.now) e (length ends.now) }
    ensures { MeetTold in_element x y k n verts.now e ends.now result }
{
    if in_element {
        return elements::holds_both(x, y, k, n, verts);
    }
    joined(x, y, e, ends)
}

// The place of the first of ys that meets x, or their number.
fn first_met(
    in_element: bool,
    x: usize,
    ys: &[usize],
    k: usize,
    n: usize,
    verts: &[usize],
    e: usize,
    ends: &[usize],
) -> usize
    requires { MeetRoom k n (length verts.now) e (length ends.now) }
    ensures { FirstMet in_element x ys.now k n verts.now e ends.now result }
{
    for (j, &y) in ys.iter().enumerate() {
        if meets(in_element, x, y, k, n, verts, e, ends) {
            return j;
        }
    }
    ys.len()
}

// The first pair of one of xs and one of ys that meets, or none.
fn first_pair(
    in_element: bool,
    xs: &[usize],
    ys: &[usize],
    k: usize,
    n: usize,
    verts: &[usize],
    e: usize,
    ends: &[usize],
) -> Option<(usize, usize)>
    requires { MeetRoom k n (length verts.now) e (length ends.now) }
    ensures { PairMet in_element xs.now ys.now k n verts.now e ends.now result }
{
    for i in 0..xs.len() {
        let x = xs[i];
        let j = first_met(in_element, x, ys, k, n, verts, e, ends);
        if j < ys.len() {
            return Some((x, ys[j]));
        }
    }
    None
}

// The first pair of the two families that one element holds, or else the first that an edge joins.
pub fn family_pair(
    in_element: bool,
    a: usize,
    b: usize,
    l: usize,
    log: &[u32],
    k: usize,
    n: usize,
    verts: &[usize],
    e: usize,
    ends: &[usize],
) -> Option<(usize, usize)>
    requires { CurrentRoom l (length log.now) k n (length verts.now) e (length ends.now) }
    ensures { FamiliesMet in_element a b l log.now k n verts.now e ends.now result }
{
    let mut first = [0usize; 4097];
    let mut second = [0usize; 4097];
    let p = family(a, l, log, &mut first);
    let q = family(b, l, log, &mut second);
    first_pair(in_element, &first[..p], &second[..q], k, n, verts, e, ends)
}

// The elements of a mesh in tables: kinds, all elements, the fan of a particle, measures.
#![tactic(auto)]

ghost use Rattle.std.specs.Prelude.{◌≡◌, ◌&&◌, ℕ, ◌+◌, ◌*◌, ◌/◌, ◌<◌, ◌≤◌, length, get_or, take, drop};
ghost use Rattle.lists.specs.Lists.{stands, all};
ghost use Rattle.model.specs.Elements.{corners_per_of, facet_others_of, triangles_from, straps_from, sum};
ghost use Rattle.mesh.specs.At.{triangles_at, edges_at};
ghost use Rattle.mesh.specs.Widths.{end_columns};
ghost use Rattle.elements.specs.Table.{kind_is, elements_in, KindFound, ElementIs, Tabled, TableRoom, FanTabled, FanRoom, MeasuredWithin, MarkRoom, HeldBoth};
ghost use Rattle.elements.specs.Workers.{TriangleRoom, StrapRoom, marked, Marked, MeasuredMarked, PassRoom};

// A mesh is triangles, or straps, or nothing.
#[derive(Clone, Copy)]
pub enum Kind {
    Triangles,
    Straps,
    Nothing,
}

// The kind of a mesh with t triangles and the first e edges of a block.
pub fn kind_of(t: usize, e: usize, ends: &[usize]) -> Kind
    requires { e ≤ length ends.now / end_columns }
    ensures { KindFound t e ends.now result }
{
    if t != 0 {
        return Kind::Triangles;
    }
    let c = ends.len() / mesh::END_COLUMNS;
    for i in 0..e {
        if ends[2 * c + i] == 1 {
            return Kind::Straps;
        }
    }
    Kind::Nothing
}

// How many corners an element has.
pub fn corners_per(kind: Kind) -> usize
    ensures { result ≡ corners_per_of (kind_is kind) }
{
    match kind {
        Kind::Triangles => 3,
        Kind::Straps => 2,
        Kind::Nothing => 2,
    }
}

// How many particles besides v two neighbours of one side share at least.
pub fn facet_others(kind: Kind) -> usize
    ensures { result ≡ facet_others_of (kind_is kind) }
{
    match kind {
        Kind::Triangles => 1,
        Kind::Straps => 0,
        Kind::Nothing => 0,
    }
}

// Is an edge with this flag an element?
pub fn is_element(kind: Kind, structural: usize) -> bool
    ensures { ElementIs (kind_is kind) structural result }
{
    match kind {
        Kind::Triangles => false,
        Kind::Straps => structural == 1,
        Kind::Nothing => false,
    }
}

// The table of all triangles.
fn triangle_table(
    t: usize,
    corners: &[usize],
    volumes: &[f32],
    numbers: &mut [usize],
    verts: &mut [usize],
    measures: &mut [f32],
)
    requires { TriangleRoom t (length corners.now) (length volumes.now) (length numbers.old) (length verts.old)
        (length measures.old) }
    ensures { Tabled 3 (triangles_from 0 (triangles_at t corners.now volumes.now)) t numbers.new
        verts.new measures.new }
{
    let c = corners.len() / mesh::CORNER_COLUMNS;
    let mut o: usize = 0;
    for i in 0..t {
        numbers[i] = i;
        verts[o] = corners[i];
        verts[o + 1] = corners[c + i];
        verts[o + 2] = corners[2 * c + i];
        measures[i] = float::abs::abs(volumes[i]);
        o += 3;
    }
}

// The table of the structural edges, and how many they are.
fn strap_table(
    e: usize,
    ends: &[usize],
    lengths: &[f32],
    numbers: &mut [usize],
    verts: &mut [usize],
    measures: &mut [f32],
) -> usize
    requires { StrapRoom e (length ends.now) (length lengths.now) (length numbers.old) (length verts.old)
        (length measures.old) }
    ensures { Tabled 2 (straps_from 0 (edges_at e ends.now lengths.now)) result numbers.new
        verts.new measures.new }
{
    let c = ends.len() / mesh::END_COLUMNS;
    let m = lengths.len() / mesh::LENGTH_COLUMNS;
    let mut n: usize = 0;
    let mut o: usize = 0;
    for i in 0..e {
        if ends[2 * c + i] == 1 {
            numbers[n] = i;
            verts[o] = ends[i];
            verts[o + 1] = ends[c + i];
            measures[n] = lengths[m + i];
            o += 2;
            n += 1;
        }
    }
    n
}

// The table of all elements of a kind, and how many they are.
pub fn element_table(
    kind: Kind,
    t: usize,
    e: usize,
    corners: &[usize],
    volumes: &[f32],
    ends: &[usize],
    lengths: &[f32],
    numbers: &mut [usize],
    verts: &mut [usize],
    measures: &mut [f32],
) -> usize
    requires { TableRoom t e (length corners.now) (length volumes.now) (length ends.now) (length lengths.now)
        (length numbers.old) (length verts.old) (length measures.old) }
    ensures { let K = kind_is kind in Tabled (corners_per_of K) (elements_in K (triangles_at t corners.now
        volumes.now) (edges_at e ends.now lengths.now)) result numbers.new verts.new
        measures.new }
{
    match kind {
        Kind::Triangles => {
            triangle_table(t, corners, volumes, numbers, verts, measures);
            t
        }
        Kind::Straps => strap_table(e, ends, lengths, numbers, verts, measures),
        Kind::Nothing => 0,
    }
}

// The table of the elements that hold v, and how many they are.
pub fn fan_table(
    v: usize,
    k: usize,
    n: usize,
    numbers: &[usize],
    verts: &[usize],
    measures: &[f32],
    fan_numbers: &mut [usize],
    fan_verts: &mut [usize],
    fan_measures: &mut [f32],
) -> usize
    requires { FanRoom k n (length numbers.now) (length verts.now) (length measures.now) (length fan_numbers.old)
        (length fan_verts.old) (length fan_measures.old) }
    ensures fan_tabled { FanTabled v k n numbers.now verts.now measures.now result fan_numbers.new
        fan_verts.new fan_measures.new }
    ensures upper_bound { result ≤ n }
{
    let mut a: usize = 0;
    let mut r: usize = 0;
    let mut o: usize = 0;
    for i in 0..n {
        let b = a + k;
        if fan::stands_in(v, &verts[a..b]) {
            let e = o + k;
            columns::copy(&verts[a..b], &mut fan_verts[o..e]);
            fan_numbers[r] = numbers[i];
            fan_measures[r] = measures[i];
            o = e;
            r += 1;
        }
        a = b;
    }
    r
}

// The first n measures, added in order.
pub fn sum_of(n: usize, measures: &[f32]) -> f32
    requires { n ≤ length measures.now }
    ensures { result ≡ sum (take n measures.now) }
{
    let mut s: f32 = 0.0;
    for i in 0..n {
        s = s + measures[i];
    }
    s
}

// Marks the listed with 1, and nothing else.
fn mark_listed(listed: &[usize], marks: &mut [usize])
    requires { (j : ℕ) → j < length listed.now → get_or listed.now j 0 < length marks.old }
    ensures { Marked listed.now marks.new }
{
    columns::clear(0, marks);
    for i in 0..listed.len() {
        let w = listed[i];
        marks[w] = 1;
    }
}

// Are all of a row marked?
fn all_marked(row: &[usize], marks: &[usize]) -> bool
    requires { (j : ℕ) → j < length row.now → get_or row.now j 0 < length marks.now }
    ensures { result ≡ all (marked marks.now) row.now }
{
    for i in 0..row.len() {
        let w = row[i];
        if marks[w] != 1 {
            return false;
        }
    }
    true
}

// The measures of the elements with all corners marked, added in order.
fn measure_marked(n: usize, k: usize, verts: &[usize], measures: &[f32], marks: &[usize]) -> f32
    requires { PassRoom k n verts.now (length measures.now) (length marks.now) }
    ensures { MeasuredMarked k n verts.now measures.now marks.now result }
{
    let mut s: f32 = 0.0;
    let mut a: usize = 0;
    for i in 0..n {
        let b = a + k;
        if all_marked(&verts[a..b], marks) {
            s = s + measures[i];
        }
        a = b;
    }
    s
}

// The measures of the elements with all corners listed, added in order.
pub fn measure_within(
    n: usize,
    k: usize,
    verts: &[usize],
    measures: &[f32],
    listed: &[usize],
    marks: &mut [usize],
) -> f32
    requires { MarkRoom k n verts.now (length measures.now) listed.now (length marks.old) }
    ensures { MeasuredWithin k n verts.now measures.now listed.now result }
{
    mark_listed(listed, marks);
    measure_marked(n, k, verts, measures, marks)
}

// Does element i of a table hold v?
pub fn holds(v: usize, k: usize, i: usize, verts: &[usize]) -> bool
    requires { i * k + k ≤ length verts.now }
    ensures { result ≡ stands v (take k (drop (i * k) verts.now)) }
{
    let a = i * k;
    let b = a + k;
    fan::stands_in(v, &verts[a..b])
}

// Do both x and y stand in b?
fn both_in(x: usize, y: usize, b: &[usize]) -> bool
    ensures { result ≡ stands x b.now && stands y b.now }
{
    if fan::stands_in(x, b) {
        return fan::stands_in(y, b);
    }
    false
}

// Does one of the n elements of a table hold both x and y?
pub fn holds_both(x: usize, y: usize, k: usize, n: usize, verts: &[usize]) -> bool
    requires { n * k ≤ length verts.now }
    ensures { HeldBoth x y k n verts.now result }
{
    let mut a: usize = 0;
    for i in 0..n {
        let b = a + k;
        if both_in(x, y, &verts[a..b]) {
            return true;
        }
        a = b;
    }
    false
}

// Loads: the stress of a triangle, or of an edge between two of its corners where that is larger.
ghost use Rattle.std.specs.Prelude.{◌≡◌, ◌&&◌, [], ◌∷◌, ◌/◌, ◌<◌, ◌≤◌, length};
ghost use Rattle.lists.specs.Lists.{stands};
ghost use Rattle.model.specs.Trace.{Sound};
ghost use Rattle.mesh.specs.At.{triangle_row};
ghost use Rattle.mesh.specs.Workers.{EdgeRoom};
ghost use Rattle.mesh.specs.Widths.{corner_columns, volume_columns};
ghost use Rattle.mesh.specs.Limits.{particle_limit};
ghost use Rattle.tear.specs.Loads.{LinkRoom, Linked, Links, Apart, Numbered, PairLoad, TriangleLoad, LoadRoom, LoadsRead};

// Is x one of the two ends?
pub fn is_end(x: usize, a: usize, b: usize) -> bool
    ensures { result ≡ stands x (a ∷ b ∷ []) }
{
    if a == x {
        return true;
    }
    b == x
}

// Are both x and y ends?
pub fn both_ends(x: usize, y: usize, a: usize, b: usize) -> bool
    ensures { result ≡ stands x (a ∷ b ∷ []) && stands y (a ∷ b ∷ []) }
{
    if is_end(x, a, b) {
        return is_end(y, a, b);
    }
    false
}

// Links the edges whose ends have the same sum: the first of each sum in heads, and behind each edge the next in nexts; e where there is none.
fn link_sums(e: usize, ends: &[usize], heads: &mut [u16], nexts: &mut [u16])
    requires { LinkRoom e ends.now heads.old (length nexts.old) }
    ensures { Linked 0 e ends.now heads.new nexts.new }
{
    let c = ends.len() / mesh::END_COLUMNS;
    for i in (0..e).rev() {
        let sum = ends[i] + ends[c + i];
        nexts[i] = heads[sum];
        heads[sum] = i as u16;
    }
}

// The larger of a load and the stresses of the edges between x and y, if there is any: all of them have the sum x + y.
fn pair_load(
    load: f32,
    x: usize,
    y: usize,
    e: usize,
    ends: &[usize],
    lengths: &[f32],
    heads: &[u16],
    nexts: &[u16],
) -> f32
    requires { EdgeRoom e (length ends.now) (length lengths.now) × Links e ends.now heads.now nexts.now × Apart x y }
    ensures { PairLoad load x y e ends.now lengths.now result }
{
    let c = ends.len() / mesh::END_COLUMNS;
    let m = lengths.len() / mesh::LENGTH_COLUMNS;
    let mut most: f32 = 0.0;
    let mut found = false;
    let mut i = heads[x + y] as usize;
    // A chain: each place tells the next, so there is no range to go over.
    while i < e {
        if both_ends(x, y, ends[i], ends[c + i]) {
            most = float::larger::larger(most, lengths[3 * m + i]);
            found = true;
        }
        i = nexts[i] as usize;
    }
    if found {
        return float::larger::larger(load, most);
    }
    load
}

// The load of triangle i, among the first e edges.
fn triangle_load(
    i: usize,
    e: usize,
    corners: &[usize],
    volumes: &[f32],
    ends: &[usize],
    lengths: &[f32],
    heads: &[u16],
    nexts: &[u16],
) -> f32
    requires { LoadRoom (i < length corners.now / corner_columns) (i < length volumes.now / volume_columns) e (length ends.now)
        (length lengths.now) × Links e ends.now heads.now nexts.now × Sound particle_limit (triangle_row (length corners.now /
        corner_columns) (length volumes.now / volume_columns) corners.now volumes.now i) }
    ensures { TriangleLoad i e corners.now volumes.now ends.now lengths.now result }
{
    let c = corners.len() / mesh::CORNER_COLUMNS;
    let w = volumes.len() / mesh::VOLUME_COLUMNS;
    let x = corners[i];
    let y = corners[c + i];
    let z = corners[2 * c + i];
    let own = volumes[w + i];
    let first = pair_load(own, x, y, e, ends, lengths, heads, nexts);
    let second = pair_load(first, x, z, e, ends, lengths, heads, nexts);
    pair_load(second, y, z, e, ends, lengths, heads, nexts)
}

// The loads of the first t triangles, by tables of links.
fn linked_loads(
    t: usize,
    e: usize,
    corners: &[usize],
    volumes: &[f32],
    ends: &[usize],
    lengths: &[f32],
    heads: &[u16],
    nexts: &[u16],
    loads: &mut [f32],
)
    requires { LoadRoom (t ≤ length corners.now / corner_columns) (t ≤ length volumes.now / volume_columns) e (length ends.now)
        (length lengths.now) × (t ≤ length loads.old) × Links e ends.now heads.now nexts.now × Numbered t e corners.now volumes.now ends.now }
    ensures { LoadsRead t e corners.now volumes.now ends.now lengths.now
        loads.new }
{
    for i in 0..t {
        loads[i] = triangle_load(i, e, corners, volumes, ends, lengths, heads, nexts);
    }
}

// The loads of the first t triangles. The tables of links are lent: in the first of them every place holds e, and what stands in the other does not matter.
pub fn read_loads(
    t: usize,
    e: usize,
    corners: &[usize],
    volumes: &[f32],
    ends: &[usize],
    lengths: &[f32],
    heads: &mut [u16],
    nexts: &mut [u16],
    loads: &mut [f32],
)
    requires { LoadRoom (t ≤ length corners.now / corner_columns) (t ≤ length volumes.now / volume_columns) e (length ends.now)
        (length lengths.now) × (t ≤ length loads.old) × Numbered t e corners.now volumes.now ends.now × LinkRoom e ends.now heads.old (length nexts.old) }
    ensures { LoadsRead t e corners.now volumes.now ends.now lengths.now
        loads.new }
{
    link_sums(e, ends, heads, nexts);
    linked_loads(t, e, corners, volumes, ends, lengths, heads, nexts, loads);
}

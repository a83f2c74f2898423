// Crack facets: where a split parts two triangles of the fan that shared a side at v, both faces that open there join the boundary and its table.
ghost use Rattle.std.specs.Prelude.{◌≡◌, [], ◌∷◌, ◌+◌, ◌/◌, ◌<◌, length};
ghost use Rattle.lists.specs.Lists.{all};
ghost use Rattle.boundary.specs.Faces.{on_by, faces_by, found_by, face_is, FaceApart, ThreeApart, FanApart, FaceRoom, FaceFound, SidesGrown, FacetsGrown, pair_facets, row_facets, all_facets, FacetTable, GrownLinked};
ghost use Rattle.work.specs.Rows.{SideRoom};

// Is w the copy, or a particle besides v of both p and q?
fn on_facet(w: usize, v: usize, copy: usize, p: &[usize], q: &[usize]) -> bool
    ensures { result ≡ on_by v copy p.now q.now w }
{
    if w == copy {
        return true;
    }
    if w == v {
        return false;
    }
    if !fan::stands_in(w, p) {
        return false;
    }
    fan::stands_in(w, q)
}

// Are both x and y?
fn side_on(x: usize, y: usize, v: usize, copy: usize, p: &[usize], q: &[usize]) -> bool
    ensures { result ≡ all (on_by v copy p.now q.now) (x ∷ y ∷ []) }
{
    if on_facet(x, v, copy, p, q) {
        return on_facet(y, v, copy, p, q);
    }
    false
}

// The ends of the first face of (x, y, z) with both ends on the facet, or none.
fn first_face(
    x: usize,
    y: usize,
    z: usize,
    v: usize,
    copy: usize,
    p: &[usize],
    q: &[usize],
) -> Option<(usize, usize)>
    requires { ThreeApart x y z }
    ensures { (face_is result ≡ found_by v copy p.now q.now (faces_by x y z)) × FaceApart result }
{
    if side_on(x, y, v, copy, p, q) {
        return Some((x, y));
    }
    if side_on(y, z, v, copy, p, q) {
        return Some((y, z));
    }
    if side_on(z, x, v, copy, p, q) {
        return Some((z, x));
    }
    None
}

// The face on the facet between parts i and j of the triangle of part r, as it is now.
fn face_of(
    i: usize,
    j: usize,
    r: usize,
    v: usize,
    before: usize,
    n: usize,
    count: usize,
    numbers: &[usize],
    verts: &[usize],
    groups: &[usize],
    corners: &[usize],
) -> Option<(usize, usize)>
    requires { FaceRoom before n count numbers.now (length verts.now) (length groups.now) (length corners.now) × (i < n) × (j < n)
        × (r < n) × FanApart n numbers.now corners.now }
    ensures { FaceFound i j r v before n count numbers.now verts.now groups.now
        corners.now result × FaceApart result }
{
    let c = corners.len() / mesh::CORNER_COLUMNS;
    let t = numbers[r];
    let copy = split_plan::copy_number(v, before, count, groups[r]);
    let a = i * 3;
    let a_end = a + 3;
    let b = j * 3;
    let b_end = b + 3;
    first_face(
        corners[t],
        corners[c + t],
        corners[2 * c + t],
        v,
        copy,
        &verts[a..a_end],
        &verts[b..b_end],
    )
}

// Appends a face that was found to the m entries, and to their table: how many entries there are then, or None where there is no room.
fn append_face(
    face: Option<(usize, usize)>,
    m: usize,
    room: usize,
    outline: &mut [usize],
    table: &mut [u16],
) -> Option<usize>
    requires { SideRoom m room (length outline.old) × FacetTable m room outline.old table.old × FaceApart face }
    ensures { SidesGrown (face_is face) m room outline.old outline.new result × GrownLinked result outline.new
        table.new }
{
    let Some((a, b)) = face else {
        return Some(m);
    };
    if m == room {
        return None;
    }
    let o = outline.len() / mesh::SIDE_COLUMNS;
    outline[m] = a;
    outline[o + m] = b;
    link_changes::append_cell(
        m,
        mesh::SIDE_COLUMNS,
        mesh::PARTICLES,
        mesh::BOUNDARY,
        o,
        outline,
        table,
    );
    Some(m + 1)
}

// Where the crack opens between parts i and j, appends the faces of both.
fn open_pair(
    i: usize,
    j: usize,
    v: usize,
    before: usize,
    n: usize,
    count: usize,
    m: usize,
    room: usize,
    numbers: &[usize],
    verts: &[usize],
    groups: &[usize],
    corners: &[usize],
    outline: &mut [usize],
    table: &mut [u16],
) -> Option<usize>
    requires { FaceRoom before n count numbers.now (length verts.now) (length groups.now) (length corners.now)
        × SideRoom m room (length outline.old) × (i < n) × (j < n) × FanApart n numbers.now corners.now
        × FacetTable m room outline.old table.old }
    ensures { FacetsGrown (pair_facets i j) v before n count m room numbers.now verts.now groups.now
        corners.now outline.old outline.new result × GrownLinked result outline.new table.new }
{
    if groups[i] == groups[j] {
        return Some(m);
    }
    let a = i * 3;
    let b = j * 3;
    if fan::shared_others(&verts[a..a + 3], &verts[b..b + 3], v) != 1 {
        return Some(m);
    }
    let first = face_of(
        i, j, i, v, before, n, count, numbers, verts, groups, corners,
    );
    let second = face_of(
        i, j, j, v, before, n, count, numbers, verts, groups, corners,
    );
    let rows = append_face(first, m, room, outline, table)?;
    append_face(second, rows, room, outline, table)
}

// Part i with each later one.
fn open_row(
    i: usize,
    v: usize,
    before: usize,
    n: usize,
    count: usize,
    m: usize,
    room: usize,
    numbers: &[usize],
    verts: &[usize],
    groups: &[usize],
    corners: &[usize],
    outline: &mut [usize],
    table: &mut [u16],
) -> Option<usize>
    requires { FaceRoom before n count numbers.now (length verts.now) (length groups.now) (length corners.now)
        × SideRoom m room (length outline.old) × (i < n) × FanApart n numbers.now corners.now
        × FacetTable m room outline.old table.old }
    ensures { FacetsGrown (row_facets i) v before n count m room numbers.now verts.now groups.now
        corners.now outline.old outline.new result × GrownLinked result outline.new table.new }
{
    let mut rows = m;
    for j in i + 1..n {
        rows = open_pair(
            i, j, v, before, n, count, rows, room, numbers, verts, groups, corners, outline, table,
        )?;
    }
    Some(rows)
}

// Appends the faces that open between the parts of a fan, pair by pair, to the b entries of the outline and to their table: how many entries there are then, or None where there is no room.
pub fn crack_facets(
    v: usize,
    before: usize,
    n: usize,
    count: usize,
    b: usize,
    room: usize,
    numbers: &[usize],
    verts: &[usize],
    groups: &[usize],
    corners: &[usize],
    outline: &mut [usize],
    table: &mut [u16],
) -> Option<usize>
    requires { FaceRoom before n count numbers.now (length verts.now) (length groups.now) (length corners.now)
        × SideRoom b room (length outline.old) × FanApart n numbers.now corners.now
        × FacetTable b room outline.old table.old }
    ensures { FacetsGrown all_facets v before n count b room numbers.now verts.now groups.now
        corners.now outline.old outline.new result × GrownLinked result outline.new table.new }
{
    let mut rows = b;
    for i in 0..n {
        rows = open_row(
            i, v, before, n, count, rows, room, numbers, verts, groups, corners, outline, table,
        )?;
    }
    Some(rows)
}

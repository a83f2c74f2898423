// The boundary in a split: each entry at v follows the first part of the fan that holds it, or else the group that points to its other end.
ghost use Rattle.std.specs.Prelude.{◌≡◌, true, [], ◌∷◌, ◌+◌, ◌*◌, ◌≤◌, length};
ghost use Rattle.lists.specs.Lists.{stands};
ghost use Rattle.split_plan.specs.Opened.{RingRoom};
ghost use Rattle.boundary.specs.Following.{SidesFollowed, row_holds, FirstHolder, SideRoom, SideGroupIs, CopiesSmall, SideCopyIs, EntryRoom, EntryFollowed, SidesRoom};
ghost use Rattle.links.specs.Linked.{SidesLinked};

// Does part i hold both x and y?
fn part_holds(x: usize, y: usize, k: usize, i: usize, verts: &[usize]) -> bool
    requires { i * k + k ≤ length verts.now }
    ensures { result ≡ row_holds x y k verts.now i }
{
    if elements::holds(x, k, i, verts) {
        return elements::holds(y, k, i, verts);
    }
    false
}

// The first of n parts that holds both x and y, or n where none does.
fn first_holder(x: usize, y: usize, n: usize, k: usize, verts: &[usize]) -> usize
    requires { RingRoom n k (length verts.now) n }
    ensures { FirstHolder x y n k verts.now result }
{
    for i in 0..n {
        if part_holds(x, y, k, i, verts) {
            return i;
        }
    }
    n
}

// The group that the boundary entry (x, y) at v follows.
fn side_group(
    x: usize,
    y: usize,
    v: usize,
    n: usize,
    k: usize,
    verts: &[usize],
    groups: &[usize],
    points: &[f32],
) -> usize
    requires { SideRoom x y v n k verts.now groups.now points.now }
    ensures { SideGroupIs x y v n k verts.now groups.now points.now result }
{
    let i = first_holder(x, y, n, k, verts);
    if i < n {
        return groups[i];
    }
    if x == v {
        return split_plan::group_toward(y, v, n, k, verts, groups, points);
    }
    split_plan::group_toward(x, v, n, k, verts, groups, points)
}

// What stands for v in the boundary entry (x, y) at v: the copy of the group that it follows.
fn side_copy(
    x: usize,
    y: usize,
    v: usize,
    before: usize,
    k: usize,
    n: usize,
    verts: &[usize],
    groups: &[usize],
    points: &[f32],
) -> usize
    requires { SideRoom x y v n k verts.now groups.now points.now × CopiesSmall before n groups.now × (stands v (x ∷ y ∷ [])
        ≡ true) }
    ensures { SideCopyIs x y v before k n verts.now groups.now points.now result }
{
    let g = side_group(x, y, v, n, k, verts, groups, points);
    mesh::rows::copy_for(v, before, g)
}

// Boundary entry i of b, which names v, follows its group, in the block and in the table.
fn follow_entry(
    i: usize,
    v: usize,
    before: usize,
    k: usize,
    n: usize,
    b: usize,
    verts: &[usize],
    groups: &[usize],
    points: &[f32],
    outline: &mut [usize],
    table: &mut [u16],
)
    requires { EntryRoom i v before k n b verts.now groups.now points.now outline.old table.old }
    ensures { EntryFollowed i v before k n verts.now groups.now points.now outline.old
        outline.new × SidesLinked b outline.new table.new }
{
    let j = outline.len() / mesh::SIDE_COLUMNS + i;
    let x = outline[i];
    let y = outline[j];
    let w = side_copy(x, y, v, before, k, n, verts, groups, points);
    link_changes::turn_row(i, v, w, b, 2, outline, table);
}

// Each of the first b boundary entries that names v follows its group. The table finds them: they are listed first.
pub fn follow_boundary(
    v: usize,
    before: usize,
    k: usize,
    n: usize,
    count: usize,
    p: usize,
    b: usize,
    verts: &[usize],
    groups: &[usize],
    points: &[f32],
    outline: &mut [usize],
    table: &mut [u16],
    list: &mut [usize],
)
    requires { SidesRoom v before k n count p b verts.now groups.now points.now outline.old
        × SidesLinked b outline.old table.old × (b ≤ length list.old) }
    ensures { SidesFollowed v before k n count p b verts.now groups.now points.now
        outline.old outline.new × SidesLinked b outline.new table.new }
{
    let span = outline.len() / mesh::SIDE_COLUMNS;
    let named = links::cells_at(
        v,
        b,
        mesh::SIDE_COLUMNS,
        mesh::PARTICLES,
        mesh::BOUNDARY,
        span,
        outline,
        table,
        list,
    );
    for q in 0..named {
        follow_entry(
            list[q], v, before, k, n, b, verts, groups, points, outline, table,
        );
    }
}

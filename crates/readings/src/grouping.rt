// The entries on the fan of a particle: its groups by sides, and whether they open it without confetti.
ghost use Rattle.std.specs.Prelude.{◌≡◌, ◌/◌, ◌≤◌, length};
ghost use Rattle.fan.specs.Fan.{fan};
ghost use Rattle.fan.specs.Groups.{groups_of, count_of};
ghost use Rattle.reach.specs.Opens.{Opens};
ghost use Rattle.mesh.specs.Refused.{answer_in};
ghost use Rattle.model.specs.Reads.{groups_call, opens_call};
ghost use Rattle.mesh.specs.Given.{mesh_of, sizes_fit_of};
ghost use Rattle.judge.specs.Checks.{fault_of};
ghost use Rattle.readings.specs.Fans.{FanAsked, GroupsFilled, WalkAsked, WalksIn, Roomy, GroupsBy};
ghost use Rattle.readings.specs.Answers.{GroupsAnswered};
ghost use Rattle.mesh.specs.Blocks.{given_in, given_before};
ghost use Rattle.mesh.specs.Widths.{corner_columns, end_columns};

use arguments::tests;
use mesh::refusals::Refusal;
use mesh_tables::{fans, tables};

// The most sides at a particle whose groups are made by a small table of corners.
const FEW_SIDES: usize = 16;

// The corners that the elements of few sides may have.
const FEW_CORNERS: usize = 3 * FEW_SIDES;

// The most corners that a fan may have.
const MOST_CORNERS: usize = mesh::ELEMENT_CORNERS;

// The most elements that are walked by small tables.
const FEW_ELEMENTS: usize = 128;

// The most elements that a mesh may have.
const MOST_ELEMENTS: usize = mesh::ELEMENTS;

// The groups of a fan at the front of a lent table, and 0 behind them. Returns how many groups there are.
fn fill_groups(
    verts: &[usize],
    k: usize,
    v: usize,
    others: usize,
    sides: &[usize],
    groups: &mut [usize],
) -> usize
    requires { FanAsked verts.now k sides.now × (length sides.now ≤ length groups.old) }
    ensures { GroupsFilled (fan verts.now k v others sides.now) (length groups.old)
        groups.new result }
{
    let s = sides.len();
    let n = fan_groups::groups_of(verts, k, v, others, sides, &mut groups[..s]);
    columns::clear(s, groups);
    n
}

// The groups of v's fan in a mesh of p particles, by a lent table that has room for as many elements as there are sides.
fn groups_by(
    p: usize,
    v: usize,
    corners: &[usize],
    ends: &[usize],
    sides: &[usize],
    verts: &mut [usize],
    groups: &mut [usize],
) -> Result<usize, Refusal>
    requires { (length corners.now / corner_columns ≤ 1024) × (length ends.now / end_columns ≤ 2048) × Roomy (length sides.now)
        (length verts.old) }
    ensures { GroupsBy p v corners.now ends.now sides.now (length groups.old) result
        groups.new }
{
    let t = corners.len() / mesh::CORNER_COLUMNS;
    let e = ends.len() / mesh::END_COLUMNS;
    let kind = elements::kind_of(t, e, ends);
    let n = fans::fan_corners(kind, v, t, e, corners, ends, verts);
    let fit = tests::sides_fit(v, p, sides, n);
    let ok = judge::tests::both(fit, sides.len() <= groups.len());
    if ok {
        let k = elements::corners_per(kind);
        let others = elements::facet_others(kind);
        let end = n * k;
        return Ok(fill_groups(&verts[..end], k, v, others, sides, groups));
    }
    columns::clear(0, groups);
    Err(Refusal::Argument)
}

// The groups of v's fan by a table of its own for N corners, where that is enough for these sides.
fn groups_in<const N: usize>(
    p: usize,
    v: usize,
    corners: &[usize],
    ends: &[usize],
    sides: &[usize],
    groups: &mut [usize],
) -> Result<usize, Refusal>
    requires { (length corners.now / corner_columns ≤ 1024) × (length ends.now / end_columns ≤ 2048) × (N ≤ 4096) × Roomy (length sides.now) N }
    ensures { GroupsBy p v corners.now ends.now sides.now (length groups.old) result
        groups.new }
{
    let mut verts = [0usize; N];
    groups_by(p, v, corners, ends, sides, &mut verts, groups)
}

// The groups of v's fan by sides: 4 for an absent particle, bad sides, or a table shorter than the fan.
pub fn groups(
    points: &[f32],
    roots: &[usize],
    corners: &[usize],
    volumes: &[f32],
    ends: &[usize],
    lengths: &[f32],
    outline: &[usize],
    v: usize,
    sides: &[usize],
    groups: &mut [usize],
) -> Result<usize, Refusal>
    ensures { let G = given_before points roots corners volumes ends lengths outline in
        GroupsAnswered (groups_call (sizes_fit_of G) (mesh_of G) v sides.now) (length groups.old) result
        groups.new }
{
    if let Err(e) = judge::checks::judge(points, roots, corners, volumes, ends, lengths, outline) {
        columns::clear(0, groups);
        return Err(e);
    }
    let p = points.len() / mesh::POINT_COLUMNS;
    if sides.len() <= FEW_SIDES {
        return groups_in::<FEW_CORNERS>(p, v, corners, ends, sides, groups);
    }
    groups_in::<MOST_CORNERS>(p, v, corners, ends, sides, groups)
}

// Does each group of a fan reach the minimum piece through the elements of a table? The lent tables hold the groups and the walk.
fn fan_opens(
    n: usize,
    k: usize,
    v: usize,
    others: usize,
    verts: &[usize],
    fan_verts: &[usize],
    sides: &[usize],
    minimum: usize,
    groups: &mut [usize],
    seen: &mut [usize],
    queue: &mut [usize],
) -> bool
    requires { FanAsked fan_verts.now k sides.now × (length sides.now ≤ length groups.old)
        × WalkAsked n k v verts.now (length sides.now) (length seen.old) (length queue.old) }
    ensures { Opens n k v verts.now (groups_of (fan fan_verts.now k v others sides.now)) (count_of
        (fan fan_verts.now k v others sides.now)) minimum result }
{
    let s = sides.len();
    let count = fan_groups::groups_of(fan_verts, k, v, others, sides, &mut groups[..s]);
    reach::opens_without_confetti(n, k, v, verts, &groups[..s], count, minimum, seen, queue)
}

// The same by tables of its own for N elements.
fn opens_in<const N: usize>(
    n: usize,
    k: usize,
    v: usize,
    others: usize,
    verts: &[usize],
    fan_verts: &[usize],
    sides: &[usize],
    minimum: usize,
) -> bool
    requires { FanAsked fan_verts.now k sides.now × (N ≤ 2048) × (length sides.now ≤ N) × WalkAsked n k v verts.now (length sides.now)
        N N }
    ensures { Opens n k v verts.now (groups_of (fan fan_verts.now k v others sides.now)) (count_of
        (fan fan_verts.now k v others sides.now)) minimum result }
{
    let mut groups = [0usize; N];
    let mut seen = [0usize; N];
    let mut queue = [0usize; N];
    fan_opens(
        n,
        k,
        v,
        others,
        verts,
        fan_verts,
        sides,
        minimum,
        &mut groups,
        &mut seen,
        &mut queue,
    )
}

// The same: few elements are walked by small tables, more by large ones.
fn walk_opens(
    n: usize,
    k: usize,
    v: usize,
    others: usize,
    verts: &[usize],
    fan_verts: &[usize],
    sides: &[usize],
    minimum: usize,
) -> bool
    requires { FanAsked fan_verts.now k sides.now × WalksIn n k v verts.now (length sides.now) × (n ≤ 2048) }
    ensures { Opens n k v verts.now (groups_of (fan fan_verts.now k v others sides.now)) (count_of
        (fan fan_verts.now k v others sides.now)) minimum result }
{
    if n <= FEW_ELEMENTS {
        return opens_in::<FEW_ELEMENTS>(n, k, v, others, verts, fan_verts, sides, minimum);
    }
    opens_in::<MOST_ELEMENTS>(n, k, v, others, verts, fan_verts, sides, minimum)
}

// The same of v's fan in an accepted mesh.
fn mesh_opens(
    points: &[f32],
    roots: &[usize],
    corners: &[usize],
    volumes: &[f32],
    ends: &[usize],
    lengths: &[f32],
    outline: &[usize],
    v: usize,
    sides: &[usize],
    minimum: usize,
) -> Result<bool, Refusal>
    requires { fault_of (given_in points roots corners volumes ends lengths outline) ≡ 0 }
    ensures { let G = given_before points roots corners volumes ends lengths outline in
        answer_in result ≡ opens_call (sizes_fit_of G) (mesh_of G) v sides.now minimum }
{
    let mut verts = [0usize; mesh::ELEMENT_CORNERS];
    let mut fan_verts = [0usize; mesh::ELEMENT_CORNERS];
    let f = tables::fan_of(
        points,
        roots,
        corners,
        volumes,
        ends,
        lengths,
        outline,
        v,
        &mut verts,
        &mut fan_verts,
    );
    let k = f.k;
    let fan = f.fan;
    if tests::sides_fit(v, points.len() / mesh::POINT_COLUMNS, sides, fan) {
        let end = fan * k;
        return Ok(walk_opens(
            f.n,
            k,
            v,
            f.others,
            &verts,
            &fan_verts[..end],
            sides,
            minimum,
        ));
    }
    Err(Refusal::Argument)
}

// Does each group that these sides make at v reach the minimum piece? 4 for an absent particle or bad sides.
pub fn opens_without_confetti(
    points: &[f32],
    roots: &[usize],
    corners: &[usize],
    volumes: &[f32],
    ends: &[usize],
    lengths: &[f32],
    outline: &[usize],
    v: usize,
    sides: &[usize],
    minimum: usize,
) -> Result<bool, Refusal>
    ensures { let G = given_before points roots corners volumes ends lengths outline in
        answer_in result ≡ opens_call (sizes_fit_of G) (mesh_of G) v sides.now minimum }
{
    judge::checks::judge(points, roots, corners, volumes, ends, lengths, outline)?;
    mesh_opens(
        points, roots, corners, volumes, ends, lengths, outline, v, sides, minimum,
    )
}

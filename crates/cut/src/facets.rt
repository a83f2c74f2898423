// The cut of triangles: the candidates are split by the blade, and then the pinched.
ghost use Rattle.std.specs.Prelude.{◌<◌, ◌≤◌, ◌≡◌, length};
ghost use Rattle.lists.specs.Lists.{fold};
ghost use Rattle.model.specs.Elements.{Triangles, corners_per_of};
ghost use Rattle.model.specs.Cut.{split_pinched_of, cut_facets_of};
ghost use Rattle.mesh.specs.Filled.{lent};
ghost use Rattle.elements.specs.Table.{kind_is};
ghost use Rattle.work.specs.Working.{Logged};
ghost use Rattle.marks.specs.Marking.{blade_by};
ghost use Rattle.marks.specs.Sided.{SidesRoom};
ghost use Rattle.links.specs.Linked.{LinkedIn};
ghost use Rattle.cut.specs.Running.{split_by_of, split_in, slackens?, Splittable, SidesFor, chosen, Chosen};
ghost use Rattle.work.specs.Blocks.{ReadyIn, WorksIn};
ghost use Rattle.split.specs.Blocks.{ListIn, LinkedBehind, LinkedParted};
ghost use Rattle.edge_drops.specs.Parted.{PartsIn};

use blade::Point;
use elements::Kind;
use marks::sides::blade_sides;
use marks::{Rule, particles};
use mesh::{Counts, Rooms};
use split::fans::{FEW, FEW_CORNERS, MANY, MANY_CORNERS, fan_tables};
use split::step::split_tabled;
use work::Ran;

// How a fan is parted: no element from another by its side; by the blade and its rule; or, at an end that straps were snapped to, by the blade in rounded numbers, and the edges at the copies are slack.
#[derive(Clone, Copy)]
pub enum Parting {
    Free,
    Blade(Rule, Point, Point),
    Snapped(Point, Point),
}

// The side of each of the n elements of v's fan.
fn part_fan(
    way: Parting,
    kind: Kind,
    v: usize,
    n: usize,
    verts: &[usize],
    points: &[f32],
    sides: &mut [usize],
)
    requires { SidesRoom v (corners_per_of (kind_is kind)) n verts.now (length points.now) (length sides.old) }
    ensures { SidesFor way (kind_is kind) v n verts.now points.now sides.new }
{
    match way {
        Parting::Free => columns::clear(0, sides),
        Parting::Blade(rule, b0, b1) => {
            blade_sides(rule, kind, b0, b1, v, n, verts, points, sides)
        }
        Parting::Snapped(b0, b1) => {
            blade_sides(Rule::Rounded, kind, b0, b1, v, n, verts, points, sides)
        }
    }
}

// Splits v by the sides of its fan, in tables with room for any fan. The straddlers are listed. (Not one function with `split_one`: how large the fan is is known once small tables are filled.)
fn split_many(
    way: Parting,
    kind: Kind,
    v: usize,
    k: Counts,
    room: Rooms,
    points: &mut [f32],
    roots: &mut [usize],
    corners: &mut [usize],
    volumes: &[f32],
    ends: &mut [usize],
    lengths: &mut [f32],
    outline: &mut [usize],
    log: &mut [u32],
    list: &mut [usize],
    links: &mut [u16],
) -> Ran
    requires { ReadyIn room k points roots corners volumes ends lengths outline log × (v < k.particles)
        × ListIn list × LinkedIn (kind_is kind) k corners ends outline links }
    ensures { let K = kind_is kind in PartsIn (λ R. split_by_of way K R v) room k points roots corners volumes ends lengths outline log
        list result × LinkedParted K corners ends outline links list result }
{
    let mut numbers = [0usize; MANY];
    let mut verts = [0usize; MANY_CORNERS];
    let mut measures = [0.0f32; MANY];
    let mut sides = [0usize; MANY];
    let mut parts = [0usize; MANY];
    let n = fan_tables(
        kind,
        v,
        k.triangles,
        k.edges,
        corners,
        volumes,
        ends,
        lengths,
        &mut numbers,
        &mut verts,
        &mut measures,
        links,
    );
    part_fan(way, kind, v, n, &verts, points, &mut sides);
    split_tabled(
        kind, v, n, &numbers, &verts, &measures, &sides, &mut parts, k, room, points, roots,
        corners, volumes, ends, lengths, outline, log, list, links,
    )
}

// Splits v by the sides of its fan, in small tables if the fan is small. The straddlers are listed: what stands in the lent list before does not matter. The tables of links must be those of the blocks, and are so again after it, with the straddlers.
fn split_one(
    way: Parting,
    kind: Kind,
    v: usize,
    k: Counts,
    room: Rooms,
    points: &mut [f32],
    roots: &mut [usize],
    corners: &mut [usize],
    volumes: &[f32],
    ends: &mut [usize],
    lengths: &mut [f32],
    outline: &mut [usize],
    log: &mut [u32],
    list: &mut [usize],
    links: &mut [u16],
) -> Ran
    requires { ReadyIn room k points roots corners volumes ends lengths outline log × (v < k.particles)
        × ListIn list × LinkedIn (kind_is kind) k corners ends outline links }
    ensures { let K = kind_is kind in PartsIn (λ R. split_by_of way K R v) room k points roots corners volumes ends lengths outline log
        list result × LinkedParted K corners ends outline links list result }
{
    let mut numbers = [0usize; FEW];
    let mut verts = [0usize; FEW_CORNERS];
    let mut measures = [0.0f32; FEW];
    let mut sides = [0usize; FEW];
    let mut parts = [0usize; FEW];
    let n = fan_tables(
        kind,
        v,
        k.triangles,
        k.edges,
        corners,
        volumes,
        ends,
        lengths,
        &mut numbers,
        &mut verts,
        &mut measures,
        links,
    );
    if n > FEW {
        return split_many(
            way, kind, v, k, room, points, roots, corners, volumes, ends, lengths, outline, log,
            list, links,
        );
    }
    part_fan(way, kind, v, n, &verts, points, &mut sides);
    split_tabled(
        kind, v, n, &numbers, &verts, &measures, &sides, &mut parts, k, room, points, roots,
        corners, volumes, ends, lengths, outline, log, list, links,
    )
}

// Are edges made slack behind a split, with so many particles before it and so many behind?
fn slackens(way: Parting, before: usize, after: usize) -> bool
    ensures { result ≡ slackens? way before after }
{
    match way {
        Parting::Free => false,
        Parting::Blade(rule, b0, b1) => false,
        Parting::Snapped(b0, b1) => before != after,
    }
}

// Splits v by the sides of its fan, and the straddlers go; where it was snapped to, the edges at its copies are slack: the copies are the particles behind those of before.
fn split_next(
    way: Parting,
    kind: Kind,
    v: usize,
    k: Counts,
    room: Rooms,
    points: &mut [f32],
    roots: &mut [usize],
    corners: &mut [usize],
    volumes: &[f32],
    ends: &mut [usize],
    lengths: &mut [f32],
    outline: &mut [usize],
    log: &mut [u32],
    list: &mut [usize],
    links: &mut [u16],
) -> Ran
    requires { ReadyIn room k points roots corners volumes ends lengths outline log × Splittable v k log.old
        × ListIn list × LinkedIn (kind_is kind) k corners ends outline links }
    ensures { let K = kind_is kind in WorksIn (λ R. split_in way K R v) room k points roots corners volumes ends lengths outline log result
        × LinkedBehind K corners ends outline links result }
{
    let next = split_one(
        way, kind, v, k, room, points, roots, corners, volumes, ends, lengths, outline, log, list,
        links,
    )?;
    edge_drops::close(
        next.edges,
        list,
        ends,
        lengths,
        &mut links[links::EDGES_FROM..links::SIDES_FROM],
    );
    if !slackens(way, k.particles, next.particles) {
        return Ok(next);
    }
    slack::slacken_from(k.particles, next.edges, ends, lengths);
    Ok(next)
}

// Splits each marked particle below p, in rising order, until one lacks room. All share the lent list.
pub fn split_marked(
    way: Parting,
    kind: Kind,
    p: usize,
    marks: &[usize],
    k: Counts,
    room: Rooms,
    points: &mut [f32],
    roots: &mut [usize],
    corners: &mut [usize],
    volumes: &[f32],
    ends: &mut [usize],
    lengths: &mut [f32],
    outline: &mut [usize],
    log: &mut [u32],
    list: &mut [usize],
    links: &mut [u16],
) -> Ran
    requires { ReadyIn room k points roots corners volumes ends lengths outline log × Chosen p k log.old (length marks.now)
        × ListIn list × LinkedIn (kind_is kind) k corners ends outline links }
    ensures { let K = kind_is kind in WorksIn (λ R. fold (split_in way K) R (chosen p marks.now)) room k points roots
        corners volumes ends lengths outline log result × LinkedBehind K corners ends outline links result }
{
    let mut counts = k;
    for v in 0..p {
        if marks[v] != 1 {
            continue;
        }
        let next = split_next(
            way, kind, v, counts, room, points, roots, corners, volumes, ends, lengths, outline,
            log, list, links,
        )?;
        counts = next;
    }
    Ok(counts)
}

// Splits the particles near a split that were left joining two pieces alone. The list first holds which particles are near.
pub fn split_pinched(
    k: Counts,
    room: Rooms,
    points: &mut [f32],
    roots: &mut [usize],
    corners: &mut [usize],
    volumes: &[f32],
    ends: &mut [usize],
    lengths: &mut [f32],
    outline: &mut [usize],
    log: &mut [u32],
    marks: &mut [usize],
    list: &mut [usize],
    links: &mut [u16],
) -> Ran
    requires { ReadyIn room k points roots corners volumes ends lengths outline log × Logged k.log log.old
        × (1024 ≤ length marks.old) × ListIn list × LinkedIn Triangles k corners ends outline links }
    ensures { WorksIn (split_pinched_of Triangles) room k points roots corners volumes ends lengths outline log result
        × LinkedBehind Triangles corners ends outline links result }
{
    particles::mark_near(k.log, log, list);
    particles::mark_pinched(k.triangles, corners, list, marks);
    split_marked(
        Parting::Free,
        Kind::Triangles,
        k.particles,
        marks,
        k,
        room,
        points,
        roots,
        corners,
        volumes,
        ends,
        lengths,
        outline,
        log,
        list,
        links,
    )
}

// Splits the candidates by the blade; then, if anything split, the pinched. Both share the lent list.
pub fn cut_facets(
    rule: Rule,
    b0: Point,
    b1: Point,
    k: Counts,
    room: Rooms,
    points: &mut [f32],
    roots: &mut [usize],
    corners: &mut [usize],
    volumes: &[f32],
    ends: &mut [usize],
    lengths: &mut [f32],
    outline: &mut [usize],
    log: &mut [u32],
    marks: &mut [usize],
    list: &mut [usize],
    links: &mut [u16],
) -> Ran
    requires { ReadyIn room k points roots corners volumes ends lengths outline log × Logged k.log log.old
        × (1024 ≤ length marks.old) × ListIn list × LinkedIn Triangles k corners ends outline links }
    ensures { WorksIn (cut_facets_of (blade_by rule b0 b1)) room k points roots corners volumes ends lengths outline log result
        × LinkedBehind Triangles corners ends outline links result }
{
    particles::mark_candidates(rule, b0, b1, k.triangles, points, corners, marks);
    let counts = split_marked(
        Parting::Blade(rule, b0, b1),
        Kind::Triangles,
        k.particles,
        marks,
        k,
        room,
        points,
        roots,
        corners,
        volumes,
        ends,
        lengths,
        outline,
        log,
        list,
        links,
    )?;
    if particles::any_split(counts.log, log) {
        return split_pinched(
            counts, room, points, roots, corners, volumes, ends, lengths, outline, log, marks,
            list, links,
        );
    }
    Ok(counts)
}

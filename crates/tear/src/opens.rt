// One end of a torn edge split: the split, the torn edge noted behind it, its bridges slack and its particles damaged.
ghost use Rattle.std.specs.Prelude.{◌≤◌, length};
ghost use Rattle.elements.specs.Table.{kind_is};
ghost use Rattle.links.specs.Linked.{LinkedIn};
ghost use Rattle.model.specs.Crack.{torn};
ghost use Rattle.split.specs.Tables.{opened_by};
ghost use Rattle.tear.specs.Torn.{TearRoom, TearTold, TearAsked, split_across};
ghost use Rattle.mesh.specs.Blocks.{mesh_in};
ghost use Rattle.work.specs.Working.{Works};
ghost use Rattle.work.specs.Blocks.{ReadyIn, OverBlocks};
ghost use Rattle.split.specs.Blocks.{GroupedIn, ListIn, LinkedBehind};

use elements::Kind;
use mesh::{Counts, Rooms};
use work::Ran;

// Notes the torn edge (a, b) behind the log of a split that left the counts q, slackens its bridges and damages x, y and the copies.
fn finish_tear(
    v: usize,
    before: usize,
    count: usize,
    w: usize,
    x: usize,
    y: usize,
    a: usize,
    b: usize,
    q: Counts,
    roots: &mut [usize],
    ends: &[usize],
    lengths: &mut [f32],
    log: &mut [u32],
) -> Ran
    requires { TearRoom q.edges q.log x y a b before count (length roots.old) (length ends.now) (length lengths.old)
        (length log.old) }
    ensures { TearTold v before count w x y a b q roots.old roots.new ends.now lengths.old
        lengths.new log.old log.new result }
{
    let e = q.edges;
    let l = q.log;
    work::notes::note(l, 4, a as u32, b as u32, 0, 0, 0, log);
    crate::tears::slacken_bridges(v, before, count, w, e, ends, lengths);
    crate::tears::damage(x, y, before, count, roots);
    Ok(Counts {
        particles: q.particles,
        triangles: q.triangles,
        edges: e,
        boundary: q.boundary,
        log: l + 1,
    })
}

// Splits v, an end of (x, y), by the groups of its fan, across the torn edge that was (a, b) in the input; w is the other end. The straddlers go before its bridges are made slack.
pub fn tear_open(
    kind: Kind,
    v: usize,
    w: usize,
    x: usize,
    y: usize,
    a: usize,
    b: usize,
    n: usize,
    count: usize,
    numbers: &[usize],
    verts: &[usize],
    measures: &[f32],
    groups: &[usize],
    k: Counts,
    room: Rooms,
    points: &mut [f32],
    roots: &mut [usize],
    corners: &mut [usize],
    volumes: &[f32],
    ends: &mut [usize],
    lengths: &mut [f32],
    outline: &mut [usize],
    log: &mut [u32],
    list: &mut [usize],
    links: &mut [u16],
) -> Ran
    requires { let K = kind_is kind in ReadyIn room k points roots corners volumes ends lengths outline log
        × GroupedIn K (mesh_in k points roots corners volumes ends lengths outline) v n count numbers verts measures groups
        × TearAsked v w x y a b k.particles × ListIn list × LinkedIn K k corners ends outline links }
    ensures { let K = kind_is kind in OverBlocks (λ M W at. Works (split_across a b x y K (opened_by K M v n count groups.now)) room W at result) k points roots corners volumes ends lengths outline log × LinkedBehind K corners ends outline links result }
{
    let was = k.particles;
    let q = split::step::split_opened(
        kind, v, n, count, 1, numbers, verts, measures, groups, k, room, points, roots, corners,
        volumes, ends, lengths, outline, log, list, links,
    )?;
    edge_drops::close(
        q.edges,
        list,
        ends,
        lengths,
        &mut links[links::EDGES_FROM..links::SIDES_FROM],
    );
    finish_tear(v, was, count, w, x, y, a, b, q, roots, ends, lengths, log)
}

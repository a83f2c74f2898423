// The crack of a whole body: the torn edges of the input in turn, and what comes behind them.
ghost use Rattle.std.specs.Prelude.{◌≡◌, [], ◌∷◌, length, take};
ghost use Rattle.elements.specs.Table.{kind_is};
ghost use Rattle.links.specs.Linked.{LinkedIn};
ghost use Rattle.model.specs.Cut.{split_pinched_of};
ghost use Rattle.model.specs.Crack.{crack};
ghost use Rattle.work.specs.Working.{Logged};
ghost use Rattle.crack.specs.Bodies.{NarrowRoom, EndsRoom, EndsKept, ends_listed, CracksRoom, CracksTold, crack_turns, crack_end};
ghost use Rattle.mesh.specs.Blocks.{world_before, world_behind};
ghost use Rattle.work.specs.Blocks.{ReadyIn, WorksIn};
ghost use Rattle.split.specs.Blocks.{LinkedBehind};

use elements::Kind;
use mesh::{Counts, Rooms};
use work::Ran;

// Copies numbers that fit 16 bits to the front of a table of such.
fn narrow(src: &[usize], dst: &mut [u16])
    requires { NarrowRoom src.now (length dst.old) }
    ensures { take (length src.now) dst.new ≡ src.now }
{
    for i in 0..src.len() {
        dst[i] = src[i] as u16;
    }
}

// Keeps the ends of the first e edges in two tables, as a crack changes their block.
fn keep_ends(e: usize, ends: &[usize], from: &mut [u16], to: &mut [u16])
    requires { EndsRoom e ends.now (length from.old) (length to.old) }
    ensures { EndsKept e ends.now from.new to.new }
{
    let size = ends.len() / mesh::END_COLUMNS;
    let last = size + e;
    narrow(&ends[..e], from);
    narrow(&ends[size..last], to);
}

// Cracks torn edge number `number` of the input by its ends there; a number not below e is skipped.
fn crack_numbered(
    kind: Kind,
    minimum: usize,
    number: usize,
    e: usize,
    from: &[u16],
    to: &[u16],
    loads: &[f32],
    k: Counts,
    room: Rooms,
    points: &mut [f32],
    roots: &mut [usize],
    corners: &mut [usize],
    volumes: &[f32],
    ends: &mut [usize],
    lengths: &mut [f32],
    outline: &mut [usize],
    log: &mut [u32],
    links: &mut [u16],
) -> Ran
    requires { let K = kind_is kind in ReadyIn room k points roots corners volumes ends lengths outline log
        × CracksRoom K e from.now to.now k (length loads.now) log.old × LinkedIn K k corners ends outline links }
    ensures { let K = kind_is kind in CracksTold K minimum k.triangles (ends_listed e from.now to.now (number
        ∷ [])) loads.now room (world_before k points roots corners volumes ends lengths outline log)
        (λ q. world_behind q points roots corners volumes ends lengths outline log) result × LinkedBehind K corners ends outline links result }
{
    if number >= e {
        return Ok(k);
    }
    tornedge::crack_edge(
        kind,
        minimum,
        from[number] as usize,
        to[number] as usize,
        loads,
        k,
        room,
        points,
        roots,
        corners,
        volumes,
        ends,
        lengths,
        outline,
        log,
        links,
    )
}

// Cracks the torn edges of a list in turn, until one lacks room.
fn crack_listed(
    kind: Kind,
    minimum: usize,
    torn: &[usize],
    e: usize,
    from: &[u16],
    to: &[u16],
    loads: &[f32],
    k: Counts,
    room: Rooms,
    points: &mut [f32],
    roots: &mut [usize],
    corners: &mut [usize],
    volumes: &[f32],
    ends: &mut [usize],
    lengths: &mut [f32],
    outline: &mut [usize],
    log: &mut [u32],
    links: &mut [u16],
) -> Ran
    requires { let K = kind_is kind in ReadyIn room k points roots corners volumes ends lengths outline log
        × CracksRoom K e from.now to.now k (length loads.now) log.old × LinkedIn K k corners ends outline links }
    ensures { let K = kind_is kind in CracksTold K minimum k.triangles (ends_listed e from.now to.now
        torn.now) loads.now room (world_before k points roots corners volumes ends lengths outline log)
        (λ q. world_behind q points roots corners volumes ends lengths outline log) result × LinkedBehind K corners ends outline links result }
{
    let mut counts = k;
    for i in 0..torn.len() {
        let next = crack_numbered(
            kind, minimum, torn[i], e, from, to, loads, counts, room, points, roots, corners,
            volumes, ends, lengths, outline, log, links,
        )?;
        counts = next;
    }
    Ok(counts)
}

// Cracks the torn edges of a list in turn, by their ends and the loads of the input. The tables of the ends first hold the links that the loads are read by.
fn crack_torn(
    kind: Kind,
    minimum: usize,
    torn: &[usize],
    k: Counts,
    room: Rooms,
    points: &mut [f32],
    roots: &mut [usize],
    corners: &mut [usize],
    volumes: &[f32],
    ends: &mut [usize],
    lengths: &mut [f32],
    outline: &mut [usize],
    log: &mut [u32],
    links: &mut [u16],
) -> Ran
    requires { ReadyIn room k points roots corners volumes ends lengths outline log × Logged k.log log.old
        × LinkedIn (kind_is kind) k corners ends outline links }
    ensures { let K = kind_is kind in WorksIn (crack_turns K minimum torn.now) room k points roots corners volumes ends
        lengths outline log result × LinkedBehind K corners ends outline links result }
{
    let none = k.edges as u16;
    let mut from = [none; mesh::EDGES];
    let mut to = [0u16; mesh::EDGES];
    let mut loads = [0.0f32; mesh::TRIANGLES];
    tear::loads::read_loads(
        k.triangles,
        k.edges,
        corners,
        volumes,
        ends,
        lengths,
        &mut from,
        &mut to,
        &mut loads,
    );
    keep_ends(k.edges, ends, &mut from, &mut to);
    crack_listed(
        kind, minimum, torn, k.edges, &from, &to, &loads, k, room, points, roots, corners, volumes,
        ends, lengths, outline, log, links,
    )
}

// Splits the pinched particles of triangles; there are none of straps. The marks and the list of the splits are here.
fn split_pinched(
    kind: Kind,
    k: Counts,
    room: Rooms,
    points: &mut [f32],
    roots: &mut [usize],
    corners: &mut [usize],
    volumes: &[f32],
    ends: &mut [usize],
    lengths: &mut [f32],
    outline: &mut [usize],
    log: &mut [u32],
    links: &mut [u16],
) -> Ran
    requires { ReadyIn room k points roots corners volumes ends lengths outline log × Logged k.log log.old
        × LinkedIn (kind_is kind) k corners ends outline links }
    ensures { WorksIn (split_pinched_of (kind_is kind)) room k points roots corners volumes ends lengths outline log result }
{
    match kind {
        Kind::Triangles => {
            let mut marks = [0usize; mesh::PARTICLES];
            let mut list = [0usize; edge_drops::LIST];
            cut::facets::split_pinched(
                k, room, points, roots, corners, volumes, ends, lengths, outline, log, &mut marks,
                &mut list, links,
            )
        }
        Kind::Straps => Ok(k),
        Kind::Nothing => Ok(k),
    }
}

// Behind the torn edges, if anything split: the pinched particles, and then the straddlers across pieces.
fn finish(
    kind: Kind,
    k: Counts,
    room: Rooms,
    points: &mut [f32],
    roots: &mut [usize],
    corners: &mut [usize],
    volumes: &[f32],
    ends: &mut [usize],
    lengths: &mut [f32],
    outline: &mut [usize],
    log: &mut [u32],
    links: &mut [u16],
) -> Ran
    requires { ReadyIn room k points roots corners volumes ends lengths outline log × Logged k.log log.old
        × LinkedIn (kind_is kind) k corners ends outline links }
    ensures { WorksIn (crack_end (kind_is kind)) room k points roots corners volumes ends lengths outline log result }
{
    if !marks::particles::any_split(k.log, log) {
        return Ok(k);
    }
    let next = split_pinched(
        kind, k, room, points, roots, corners, volumes, ends, lengths, outline, log, links,
    )?;
    straddlers::across::remove_straddlers(
        kind, next, room, corners, volumes, ends, lengths, outline, log,
    )
}

// Cracks the torn edges of a list in turn, and then does what comes behind them. All share the lent tables of links.
fn crack_linked(
    kind: Kind,
    minimum: usize,
    torn: &[usize],
    k: Counts,
    room: Rooms,
    points: &mut [f32],
    roots: &mut [usize],
    corners: &mut [usize],
    volumes: &[f32],
    ends: &mut [usize],
    lengths: &mut [f32],
    outline: &mut [usize],
    log: &mut [u32],
    links: &mut [u16],
) -> Ran
    requires { ReadyIn room k points roots corners volumes ends lengths outline log × Logged k.log log.old
        × LinkedIn (kind_is kind) k corners ends outline links }
    ensures { WorksIn (crack (kind_is kind) minimum torn.now) room k points roots corners volumes ends lengths outline log
        result }
{
    let counts = crack_torn(
        kind, minimum, torn, k, room, points, roots, corners, volumes, ends, lengths, outline, log,
        links,
    )?;
    finish(
        kind, counts, room, points, roots, corners, volumes, ends, lengths, outline, log, links,
    )
}

// Cracks the body across torn edges of the input, and does what comes behind them. The tables of links are built once, and every split keeps them; where no edge is torn and nothing split, none is built.
pub fn crack_body(
    kind: Kind,
    minimum: usize,
    torn: &[usize],
    k: Counts,
    room: Rooms,
    points: &mut [f32],
    roots: &mut [usize],
    corners: &mut [usize],
    volumes: &[f32],
    ends: &mut [usize],
    lengths: &mut [f32],
    outline: &mut [usize],
    log: &mut [u32],
) -> Ran
    requires { ReadyIn room k points roots corners volumes ends lengths outline log × Logged k.log log.old }
    ensures { WorksIn (crack (kind_is kind) minimum torn.now) room k points roots corners volumes ends lengths outline log
        result }
{
    if torn.len() == 0 {
        if !marks::particles::any_split(k.log, log) {
            return Ok(k);
        }
    }
    let mut links = [0u16; links::PLACES];
    links::link_mesh(
        kind,
        k.triangles,
        k.edges,
        k.boundary,
        corners,
        ends,
        outline,
        &mut links,
    );
    crack_linked(
        kind, minimum, torn, k, room, points, roots, corners, volumes, ends, lengths, outline, log,
        &mut links,
    )
}

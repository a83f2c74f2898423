// The crossings of a strap cut, one after the other over the lent blocks.
ghost use Rattle.std.specs.Prelude.{◌≡◌, [], ◌∷◌, ◌<◌, ◌≤◌, length};
ghost use Rattle.crossing.specs.Crossings.{crossed_in};
ghost use Rattle.crossing.specs.Crossed.{CrossingsIn, CrossIn, CrossedIn};
ghost use Rattle.links.specs.Linked.{EdgesLinked};
ghost use Rattle.insert.specs.Tables.{EdgesAfter};

use insert::plan;
use mesh::{Counts, Rooms};
use work::Ran;

// One crossing: inserted, with the bend edges over its segment marked; or its near end is marked to be split.
fn cross(
    f: f32,
    number: usize,
    t: f32,
    k: Counts,
    room: Rooms,
    points: &mut [f32],
    roots: &mut [usize],
    ends: &mut [usize],
    lengths: &mut [f32],
    outline: &mut [usize],
    log: &mut [u32],
    bends: &mut [usize],
    snapped: &mut [usize],
    table: &mut [u16],
) -> Ran
    requires { CrossIn room k points roots ends lengths outline log bends snapped × (number < k.edges)
        × EdgesLinked k.edges ends.old table.old }
    ensures { CrossedIn f (record { number = number; t = t } ∷ []) room k points roots ends lengths outline log bends snapped result
        × EdgesAfter ends.new table.new result }
{
    let plan = plan::plan_at(
        f,
        number,
        t,
        k.particles,
        k.edges,
        points,
        ends,
        lengths,
        table,
    );
    let row = plan.row;
    if plan::insertable(f, t, plan, points) {
        crate::bends::mark_bends(row.a, row.b, k.edges, ends, bends, table);
        return insert::step::insert(
            plan, k, room, points, roots, ends, lengths, outline, log, table,
        );
    }
    let near = plan::near_end(row.a, row.b, t);
    snapped[near] = 1;
    Ok(k)
}

// All crossings in turn, until one lacks room. The table of the edges is kept true.
pub fn cross_all(
    f: f32,
    m: usize,
    numbers: &[u16],
    ts: &[f32],
    k: Counts,
    room: Rooms,
    points: &mut [f32],
    roots: &mut [usize],
    ends: &mut [usize],
    lengths: &mut [f32],
    outline: &mut [usize],
    log: &mut [u32],
    bends: &mut [usize],
    snapped: &mut [usize],
    table: &mut [u16],
) -> Ran
    requires { CrossIn room k points roots ends lengths outline log bends snapped
        × CrossingsIn m numbers.now (length ts.now) k log.old × EdgesLinked k.edges ends.old table.old }
    ensures { CrossedIn f (crossed_in m numbers.now ts.now) room k points roots ends lengths outline log bends
        snapped result × EdgesAfter ends.new table.new result }
{
    let mut counts = k;
    for i in 0..m {
        let next = cross(
            f,
            numbers[i] as usize,
            ts[i],
            counts,
            room,
            points,
            roots,
            ends,
            lengths,
            outline,
            log,
            bends,
            snapped,
            table,
        )?;
        counts = next;
    }
    Ok(counts)
}

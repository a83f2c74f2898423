// An insertion as one step: the rooms are tested in their order, then every list is written, and the log.
ghost use Rattle.std.specs.Prelude.{length};
ghost use Rattle.insert.specs.Steps.{StepRoom, InsertTold};
ghost use Rattle.insert.specs.Tables.{StrapLinked, EdgesAfter};

use crate::plan::Plan;
use mesh::refusals::Refusal;
use mesh::{Counts, Rooms};
use work::Ran;

// The insertion that is planned, in the mesh whose counts are k. Where it is done, the table of the edges is kept true.
pub fn insert(
    plan: Plan,
    k: Counts,
    room: Rooms,
    points: &mut [f32],
    roots: &mut [usize],
    ends: &mut [usize],
    lengths: &mut [f32],
    outline: &mut [usize],
    log: &mut [u32],
    table: &mut [u16],
) -> Ran
    requires { StepRoom plan k room (length points.old) (length roots.old) (length ends.old) (length lengths.old)
        (length outline.old) (length log.old) × StrapLinked plan k.edges ends.old table.old }
    ensures { InsertTold plan room k points.old roots.old ends.old lengths.old
        outline.old log.old points.new roots.new ends.new lengths.new
        outline.new log.new result × EdgesAfter ends.new table.new result }
{
    let row = plan.row;
    let a = row.a;
    let b = row.b;
    let n = plan.before;
    let e = k.edges;
    let g = k.log;
    if room.particles < n + 2 {
        return Err(Refusal::Particles);
    }
    if room.edges < e + 1 {
        return Err(Refusal::Edges);
    }
    let grown = crate::sides::insert_sides(a, b, n, n + 1, k.boundary, room.boundary, outline);
    let Some(sides) = grown else {
        return Err(Refusal::Boundary);
    };
    if room.log < g + 1 {
        return Err(Refusal::Entries);
    }
    crate::particles::insert_particles(plan, points, roots);
    crate::edges::insert_edges(plan, e, ends, lengths, table);
    work::notes::note(
        g,
        3,
        a as u32,
        b as u32,
        n as u32,
        (n + 1) as u32,
        work::notes::bits_of(plan.at),
        log,
    );
    Ok(Counts {
        particles: n + 2,
        triangles: k.triangles,
        edges: e + 1,
        boundary: sides,
        log: g + 1,
    })
}

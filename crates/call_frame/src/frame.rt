// The frame around the workers of a call: the input copied, or a refusal; and the lent blocks finished with the answer.
ghost use Rattle.std.specs.Prelude.{◌≡◌, []};
ghost use Rattle.model.specs.Calls.{too_small};
ghost use Rattle.mesh.specs.Given.{mesh_of, sizes, as_rooms};
ghost use Rattle.mesh.specs.Filled.{lent};
ghost use Rattle.mesh.specs.Refused.{refusal_in};
ghost use Rattle.call_frame.specs.Framed.{copy_need, BeginAsked, Begun, RanFits, Finished};
ghost use Rattle.mesh.specs.Blocks.{mesh_behind, lent_in, lent_before, given_in, given_before, blocks_in};
ghost use Rattle.mesh.specs.Log.{world_at};

use crate::Answer;
use mesh::refusals::Refusal;
use mesh::{Counts, Rooms};
use refusal_numbers::Tells;

// 5, 6 or 7 if the copy of an input with these counts lacks room for particles, edges or boundary.
pub fn lacking(k: Counts, room: Rooms) -> Result<(), Refusal>
    ensures { refusal_in result ≡ too_small (as_rooms room) (copy_need k) }
{
    if room.particles < k.particles {
        return Err(Refusal::Particles);
    }
    if room.edges < k.edges {
        return Err(Refusal::Edges);
    }
    if room.boundary < k.boundary {
        return Err(Refusal::Boundary);
    }
    Ok(())
}

// Copies the input to the lent blocks, unless there is a refusal already, or no room for it. Returns the refusal, or the fault, which tells 0 then.
pub fn begin<F: Tells>(
    fault: F,
    room: Rooms,
    in_points: &[f32],
    in_roots: &[usize],
    in_corners: &[usize],
    in_volumes: &[f32],
    in_ends: &[usize],
    in_lengths: &[f32],
    in_outline: &[usize],
    points: &mut [f32],
    roots: &mut [usize],
    corners: &mut [usize],
    volumes: &mut [f32],
    ends: &mut [usize],
    lengths: &mut [f32],
    outline: &mut [usize],
) -> F
    requires { BeginAsked (F.told fault) room (given_in in_points in_roots in_corners in_volumes in_ends in_lengths in_outline)
        (blocks_in points roots corners volumes ends lengths outline) }
    ensures { let G = given_before in_points in_roots in_corners in_volumes in_ends in_lengths in_outline in
        Begun (F.told fault) room (mesh_of G) (mesh_behind (sizes G) points roots corners volumes ends lengths outline)
        (F.told result) }
{
    if fault.tell() != 0 {
        return fault;
    }
    let k = Counts {
        particles: in_points.len() / mesh::POINT_COLUMNS,
        triangles: in_corners.len() / mesh::CORNER_COLUMNS,
        edges: in_ends.len() / mesh::END_COLUMNS,
        boundary: in_outline.len() / mesh::SIDE_COLUMNS,
        log: 0,
    };
    if let Err(e) = lacking(k, room) {
        return F::refuse(e);
    }
    mesh::whole::copy_all(
        k, in_points, in_roots, in_corners, in_volumes, in_ends, in_lengths, in_outline, points,
        roots, corners, volumes, ends, lengths, outline,
    );
    fault
}

// The end of a call: 0 behind the rows and the log that its worker came to, or everywhere after a refusal; and the answer.
pub fn finish<E: Copy>(
    ran: Result<Counts, E>,
    points: &mut [f32],
    roots: &mut [usize],
    corners: &mut [usize],
    volumes: &mut [f32],
    ends: &mut [usize],
    lengths: &mut [f32],
    outline: &mut [usize],
    log: &mut [u32],
) -> Result<Answer, E>
    requires { RanFits ran (lent_in points roots corners volumes ends lengths outline log) }
    ensures { Finished ran (λ k. world_at k points.old roots.old corners.old volumes.old ends.old lengths.old outline.old log.old)
        (lent_before points roots corners volumes ends lengths outline log) result points.new roots.new corners.new
        volumes.new ends.new lengths.new outline.new log.new }
{
    match ran {
        Err(c) => {
            let none = Counts {
                particles: 0,
                triangles: 0,
                edges: 0,
                boundary: 0,
                log: 0,
            };
            crate::closing::finish_all(
                none, points, roots, corners, volumes, ends, lengths, outline, log,
            );
            Err(c)
        }
        Ok(k) => {
            let any = crate::logged::changed(k.log, log);
            crate::closing::finish_all(
                k, points, roots, corners, volumes, ends, lengths, outline, log,
            );
            Ok(Answer {
                counts: k,
                changed: any,
            })
        }
    }
}

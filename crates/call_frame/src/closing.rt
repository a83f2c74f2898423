// What stands behind a mesh and its log in the lent blocks: 0 in every place.
ghost use Rattle.std.specs.Prelude.{◌≡◌, ◌≤◌, length, take};
ghost use Rattle.lists.specs.Lists.{padded};
ghost use Rattle.mesh.specs.Filled.{Filled, Fits, lent};
ghost use Rattle.mesh.specs.Blocks.{lent_in, lent_before};
ghost use Rattle.mesh.specs.Log.{world_at};

use mesh::Counts;

// Puts 0 behind the counts, in every block and in the log: the blocks are finished beside a log of no entries, and then the log.
pub fn finish_all(
    k: Counts,
    points: &mut [f32],
    roots: &mut [usize],
    corners: &mut [usize],
    volumes: &mut [f32],
    ends: &mut [usize],
    lengths: &mut [f32],
    outline: &mut [usize],
    log: &mut [u32],
)
    requires { Fits k (lent_in points roots corners volumes ends lengths outline log) }
    ensures { Filled (world_at k points.old roots.old corners.old volumes.old ends.old lengths.old outline.old log.old)
        (lent_before points roots corners volumes ends lengths outline log) points.new roots.new corners.new
        volumes.new ends.new lengths.new outline.new log.new }
{
    let mut none = [0usize; 1];
    let q = Counts {
        particles: k.particles,
        triangles: k.triangles,
        edges: k.edges,
        boundary: k.boundary,
        log: 0,
    };
    mesh::whole::finish_all(
        q, points, roots, corners, volumes, ends, lengths, outline, &mut none,
    );
    columns::clear(6 * k.log, log);
}

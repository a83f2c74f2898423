// Marked edges and boundary entries go from the lent blocks; each edge that goes is noted by its ends, the marked ones or those of a list.
ghost use Rattle.std.specs.Prelude.{◌≡◌, length};
ghost use Rattle.mesh.specs.At.{edges_at};
ghost use Rattle.mesh.specs.Workers.{Removed};
ghost use Rattle.work.specs.Removal.{marked_of, NoteRoom, EdgesNoted, ListNoteRoom, ListNoted, MarkedRoom, GoneRoom, GoneTo};

use crate::Ran;
use mesh::refusals::Refusal;
use mesh::{Counts, Rooms};

// Notes the marked edges among the first n, by their ends, behind the `at` entries of the log; returns how many entries there are.
pub fn note_edges(mask: &[usize], n: usize, at: usize, ends: &[usize], log: &mut [u32]) -> usize
    requires { NoteRoom mask.now n at ends.now (length log.old) }
    ensures { EdgesNoted mask.now n at ends.now log.old log.new result }
{
    let c = ends.len() / mesh::END_COLUMNS;
    let mut w = at;
    for i in 0..n {
        if mask[i] == 1 {
            crate::notes::note(w, 2, ends[i] as u32, ends[c + i] as u32, 0, 0, 0, log);
            w += 1;
        }
    }
    w
}

// Notes the s marked edges among the first n; where none is marked there is nothing to look for.
pub fn note_marked(
    mask: &[usize],
    n: usize,
    s: usize,
    at: usize,
    ends: &[usize],
    log: &mut [u32],
) -> usize
    requires { NoteRoom mask.now n at ends.now (length log.old) × (s ≡ length (marked_of mask.now n)) }
    ensures { EdgesNoted mask.now n at ends.now log.old log.new result }
{
    if s == 0 {
        return at;
    }
    note_edges(mask, n, at, ends, log)
}

// Notes the s edges of a list, by their ends, behind the `at` entries of the log; returns how many entries there are.
pub fn note_listed(list: &[usize], s: usize, at: usize, ends: &[usize], log: &mut [u32]) -> usize
    requires { ListNoteRoom list.now s at ends.now (length log.old) }
    ensures { ListNoted list.now s at ends.now log.old log.new result }
{
    let c = ends.len() / mesh::END_COLUMNS;
    for i in 0..s {
        let e = list[i];
        crate::notes::note(at + i, 2, ends[e] as u32, ends[c + e] as u32, 0, 0, 0, log);
    }
    at + s
}

// Removes the s marked edges from the first n, and returns how many are left; where none is marked there is nothing to move.
pub fn drop_marked(
    mask: &[usize],
    n: usize,
    s: usize,
    ends: &mut [usize],
    lengths: &mut [f32],
) -> usize
    requires { MarkedRoom mask.now n s (length ends.old) (length lengths.old) }
    ensures { Removed mask.now n result (edges_at n ends.old lengths.old) (edges_at result ends.new
        lengths.new) }
{
    if s == 0 {
        return n;
    }
    mesh::rows::remove_edges(mask, n, ends, lengths)
}

// Removes the marked edges and boundary entries, and notes the s edges, if the log has room.
pub fn remove_marked(
    k: Counts,
    room: Rooms,
    s: usize,
    edge_mask: &[usize],
    side_mask: &[usize],
    ends: &mut [usize],
    lengths: &mut [f32],
    outline: &mut [usize],
    log: &mut [u32],
) -> Ran
    requires { GoneRoom room k s edge_mask.now (length side_mask.now) ends.old (length lengths.old) (length outline.old)
        (length log.old) }
    ensures { GoneTo room k edge_mask.now side_mask.now ends.old ends.new
        lengths.old lengths.new outline.old outline.new log.old log.new result }
{
    if room.log - k.log < s {
        return Err(Refusal::Entries);
    }
    let g = note_marked(edge_mask, k.edges, s, k.log, ends, log);
    let e = drop_marked(edge_mask, k.edges, s, ends, lengths);
    let b = columns::keep_block(
        side_mask,
        k.boundary,
        2,
        outline.len() / mesh::SIDE_COLUMNS,
        outline,
    );
    Ok(Counts {
        particles: k.particles,
        triangles: k.triangles,
        edges: e,
        boundary: b,
        log: g,
    })
}

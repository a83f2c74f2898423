// The bend edges over the segments that were cut go, each noted by its ends.
ghost use Rattle.std.specs.Prelude.{◌≡◌, ◌≤◌, length};
ghost use Rattle.work.specs.Removal.{marked_of};
ghost use Rattle.crossing.specs.Unbent.{UnbentRoom, UnbentTold};

use mesh::{Counts, Rooms};
use work::Ran;

// How many of the first n marks are 1.
fn count_marked(n: usize, marks: &[usize]) -> usize
    requires { n ≤ length marks.now }
    ensures { result ≡ length (marked_of marks.now n) }
{
    let mut count: usize = 0;
    for i in 0..n {
        if marks[i] == 1 {
            count += 1;
        }
    }
    count
}

// The marked edges go; nothing happens where none is marked. The boundary loses nothing: no entry of it is marked.
pub fn remove_bends(
    bends: &[usize],
    k: Counts,
    room: Rooms,
    ends: &mut [usize],
    lengths: &mut [f32],
    outline: &mut [usize],
    log: &mut [u32],
) -> Ran
    requires { UnbentRoom room k (length bends.now) ends.old (length lengths.old) (length outline.old) (length log.old) }
    ensures { UnbentTold room k bends.now ends.old lengths.old outline.old
        log.old ends.new lengths.new outline.new log.new result }
{
    let s = count_marked(k.edges, bends);
    if s == 0 {
        return Ok(k);
    }
    let none = [0usize; mesh::BOUNDARY];
    work::removal::remove_marked(k, room, s, bends, &none, ends, lengths, outline, log)
}

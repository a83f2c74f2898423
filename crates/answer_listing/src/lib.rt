// The listing of an answer that goes with blocks: the pieces that they make are counted, and the text is written.
#![tactic(auto)]

ghost use Rattle.std.specs.Prelude.{◌≡◌, length};
ghost use Rattle.mesh.specs.At.{triangles_at, edges_at};
ghost use Rattle.listing.specs.Answers.{Told};
ghost use Rattle.answer_listing.specs.Listed.{pieces_in, Countable, Listable, text_of_by};

use call_frame::Answer;
use mesh::Counts;
use refusal_numbers::Tells;

// How many pieces the triangles and edges at the fronts of blocks make.
fn count_pieces(
    k: Counts,
    corners: &[usize],
    volumes: &[f32],
    ends: &[usize],
    lengths: &[f32],
) -> usize
    requires { Countable k corners.now volumes.now ends.now lengths.now }
    ensures { result ≡ pieces_in (triangles_at k.triangles corners.now volumes.now) (edges_at k.edges
        ends.now lengths.now) }
{
    let mut numbers = [0usize; 512];
    let mut verts = [0usize; 1024];
    let mut measures = [0.0f32; 512];
    let mut heads = [0u16; 4096];
    let mut links = [0u16; 1024];
    let mut lows = [0u16; 1024];
    let mut parent = [0usize; 512];
    let t = k.triangles;
    let e = k.edges;
    let kind = elements::kind_of(t, e, ends);
    let n = elements::element_table(
        kind,
        t,
        e,
        corners,
        volumes,
        ends,
        lengths,
        &mut numbers,
        &mut verts,
        &mut measures,
    );
    let per = elements::corners_per(kind);
    pieces::sides::count_sides(
        n,
        per,
        &verts,
        &mut heads,
        &mut links,
        &mut lows,
        &mut parent[..n],
    )
}

// Writes the listing of an answer that goes with the blocks, with the line of a replaced outline or without, or the line of its refusal.
pub fn list_answer<E: Tells>(
    replaced: bool,
    a: Result<Answer, E>,
    corners: &[usize],
    volumes: &[f32],
    ends: &[usize],
    lengths: &[f32],
    log: &[u32],
    out: &mut [u8],
) -> Option<usize>
    requires { Listable a corners.now volumes.now ends.now lengths.now (length log.now) }
    ensures { Told (text_of_by E.told replaced a corners.now volumes.now ends.now lengths.now
        log.now) (length out.old) out.new result }
{
    match a {
        Err(e) => listing::write_refused(e.tell(), out),
        Ok(answer) => {
            let k = answer.counts;
            let found = count_pieces(k, corners, volumes, ends, lengths);
            listing::write_listing(replaced, k.log, log, k.particles, found, out)
        }
    }
}

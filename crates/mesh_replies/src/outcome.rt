// The reply of a C function that gives a mesh: the words of the answer and of the log in the lent bytes, and the number of the refusal.
ghost use Rattle.std.specs.Prelude.{◌≡◌, ◌+◌, ◌*◌, ◌≤◌, ◌<◌, [], length, take};
ghost use Rattle.lists.specs.Lists.{pick};
ghost use Rattle.model.specs.Reads.{refused, value};
ghost use Rattle.image.specs.Words.{put_words, written};
ghost use Rattle.mesh_replies.specs.Both.{BothReplied};
ghost use Rattle.mesh_replies.specs.Told.{listed_edges, done_words, mesh_told_by, log_told, Tellable, TellingBy};

use mesh::Counts;
use mesh::refusals::Refusal;
use refusal_numbers::Tells;

// A refusal: every byte of the answer and of the log is 0. (The C interface has its number.)
pub fn refuse(code: usize, out: &mut [u8], log: &mut [u8]) -> u32
    requires { code < 256 }
    ensures { BothReplied (refused code) [] (length out.old) (length log.old) result out.new
        log.new }
{
    image_writing::clear_bytes(out);
    image_writing::clear_bytes(log);
    code as u32
}

// 1 for true, 0 for false.
fn one_if(b: bool) -> usize
    ensures { result ≡ pick b 1 0 }
{
    if b {
        return 1;
    }
    0
}

// Writes words of a log from word `at` on.
fn store_log(words: &[u32], at: usize, log: &mut [u8])
    requires { 4 * (at + length words.now) ≤ length log.old }
    ensures { log.new ≡ put_words log.old at words.now }
{
    for i in 0..words.len() {
        image_writing::put_word(log, at + i, words[i] as usize);
    }
}

// Writes the words of the first n entries of a log, and 0 behind them.
fn log_out(words: &[u32], n: usize, log: &mut [u8])
    requires { (6 * n ≤ length words.now) × (24 * n ≤ length log.old) }
    ensures { log.new ≡ written (length log.old) (take (6 * n) words.now) }
{
    image_writing::clear_bytes(log);
    let end = 6 * n;
    store_log(&words[..end], 0, log);
}

// The reply to a mesh in seven blocks, without its listed edges, and a log; 4 where the answer's words have no room.
// Only the bytes behind the answer are cleared.
fn reply_done(
    k: Counts,
    any: bool,
    gone: &[usize],
    points: &[f32],
    roots: &[usize],
    corners: &[usize],
    volumes: &[f32],
    ends: &[usize],
    lengths: &[f32],
    outline: &[usize],
    words: &[u32],
    out: &mut [u8],
    log: &mut [u8],
) -> u32
    requires { Tellable k gone.now (length points.now) (length roots.now) (length corners.now) (length volumes.now)
        (length ends.now) (length lengths.now) (length outline.now) (length words.now) (length log.old) }
    ensures { BothReplied (value (done_words k any (listed_edges gone.now) points.now roots.now
        corners.now volumes.now ends.now lengths.now outline.now)) (take
        (6 * k.log) words.now) (length out.old) (length log.old) result out.new log.new }
{
    let p = k.particles;
    let t = k.triangles;
    let e = k.edges;
    let b = k.boundary;
    let n = k.log;
    let s = gone[edge_drops::LISTED];
    let end = 4 * (6 + mesh::PARTICLE_WORDS * p + 5 * t + 8 * e + 2 * b);
    if out.len() < end {
        return refuse(Refusal::Argument.number(), out, log);
    }
    image_writing::put_word(out, 0, one_if(any));
    image_writing::put_word(out, 1, n);
    image_writing::store_without(
        k, s, gone, points, roots, corners, volumes, ends, lengths, outline, 2, out,
    );
    image_writing::clear_bytes_from(out, end);
    log_out(words, n, log);
    0
}

// The reply to what a call that gives a mesh came to. The blocks still hold the listed edges, which the answer leaves out.
pub fn reply_ran<E: Tells>(
    ran: Result<Counts, E>,
    gone: &[usize],
    points: &[f32],
    roots: &[usize],
    corners: &[usize],
    volumes: &[f32],
    ends: &[usize],
    lengths: &[f32],
    outline: &[usize],
    words: &[u32],
    out: &mut [u8],
    log: &mut [u8],
) -> u32
    requires { TellingBy E.told ran gone.now (length points.now) (length roots.now) (length corners.now) (length volumes.now)
        (length ends.now) (length lengths.now) (length outline.now) (length words.now) (length log.old) }
    ensures { BothReplied (mesh_told_by E.told ran gone.now points.now roots.now corners.now
        volumes.now ends.now lengths.now outline.now words.now)
        (log_told ran words.now) (length out.old) (length log.old) result out.new log.new }
{
    match ran {
        Err(refusal) => {
            return refuse(refusal.tell(), out, log);
        }
        Ok(k) => {
            let any = call_frame::logged::changed(k.log, words);
            return reply_done(
                k, any, gone, points, roots, corners, volumes, ends, lengths, outline, words, out,
                log,
            );
        }
    }
}

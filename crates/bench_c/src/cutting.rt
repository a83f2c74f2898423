// The C functions that cut and crack: their arguments read from bytes, and the job run.
ghost use Rattle.std.specs.Prelude.{◌≡◌, length};
ghost use Rattle.job_replies.specs.Outcomes.{OutcomeReplied};
ghost use Rattle.bench_c.specs.Torn.{cut_outcome, crack_outcome, words_few_of};

use mesh_calls::Job;

// A mesh image cut along a blade of four words, in an edition, 1 or 2, with the insertion fraction of a word. The job looks at no list.
pub fn bench_cut(
    bytes: &[u8],
    blade: &[u8],
    edition: u32,
    fraction: u32,
    rooms: &[u8],
    out: &mut [u8],
    log: &mut [u8],
) -> u32
    ensures { OutcomeReplied (cut_outcome bytes.now blade.now edition fraction rooms.now
        (length log.old)) (length out.old) (length log.old) result out.new log.new }
{
    if blade.len() != 16 {
        return mesh_replies::outcome::refuse(reading_c::unread::unread(bytes), out, log);
    }
    let none = [0usize; 1];
    let job = call_words::cut_job(blade, edition, fraction);
    crate::tearing::reply_job(job, &none, bytes, rooms, out, log)
}

// Are so many bytes at most 2,048 whole words?
fn words_few(n: usize) -> bool
    ensures { result ≡ words_few_of n }
{
    judge::tests::both(n % 4 == 0, n <= 8192)
}

// A mesh image cracked across torn edges, a word for each, with a minimum piece.
pub fn bench_crack(
    bytes: &[u8],
    torn: &[u8],
    minimum: u32,
    rooms: &[u8],
    out: &mut [u8],
    log: &mut [u8],
) -> u32
    ensures { OutcomeReplied (crack_outcome bytes.now torn.now minimum rooms.now
        (length log.old)) (length out.old) (length log.old) result out.new log.new }
{
    if words_few(torn.len()) {
        let mut numbers = [0usize; 2048];
        let n = torn.len() / 4;
        image::words_into(torn, 0, n, &mut numbers);
        return crate::tearing::reply_job(
            Job::Crack(minimum as usize),
            &numbers[..n],
            bytes,
            rooms,
            out,
            log,
        );
    }
    mesh_replies::outcome::refuse(reading_c::unread::unread(bytes), out, log)
}

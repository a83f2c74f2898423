// The C functions that give a mesh. Each is a job on an image, which crate job_replies answers.
ghost use Rattle.std.specs.Prelude.{length};
ghost use Rattle.mesh.specs.Given.{mesh_of};
ghost use Rattle.mesh_calls.specs.Jobs.{job_numbers, job_call};
ghost use Rattle.image.specs.Image.{image_of, image_sized_of};
ghost use Rattle.job_replies.specs.Outcomes.{OutcomeReplied, with_rooms};
ghost use Rattle.bench_c.specs.Torn.{rooms_in_of, split_outcome, straddlers_outcome};

use mesh::refusals::Refusal;
use mesh_calls::Job;

// A job on an image, with the rooms of four words. Other rooms are bad ones.
pub fn reply_job(
    job: Job,
    list: &[usize],
    bytes: &[u8],
    rooms: &[u8],
    out: &mut [u8],
    log: &mut [u8],
) -> u32
    ensures { OutcomeReplied (with_rooms bytes.now rooms.now (job_numbers job)
        (job_call job list.now (image_sized_of bytes.now) (mesh_of (image_of bytes.now))
        (rooms_in_of rooms.now (length log.old)))) (length out.old) (length log.old) result
        out.new log.new }
{
    if image::image_sized(bytes) {
        let room = call_words::rooms_in(rooms, log.len());
        return job_replies::sizes::reply_sized(job, list, room, bytes, rooms, out, log);
    }
    mesh_replies::outcome::refuse(Refusal::Size.number(), out, log)
}

// The straddlers across the pieces of a mesh image removed. The job looks at no list.
pub fn bench_straddlers(bytes: &[u8], rooms: &[u8], out: &mut [u8], log: &mut [u8]) -> u32
    ensures { OutcomeReplied (straddlers_outcome bytes.now rooms.now (length log.old)) (length
        out.old) (length log.old) result out.new log.new }
{
    let none = [0usize; 1];
    reply_job(Job::Straddlers, &none, bytes, rooms, out, log)
}

// Particle v of a mesh image split by the sides of its fan. More than 2,048 sides are too many for any fan, so 2,049 of them tell.
pub fn bench_split(
    bytes: &[u8],
    v: u32,
    sides: &[u8],
    rooms: &[u8],
    out: &mut [u8],
    log: &mut [u8],
) -> u32
    ensures { OutcomeReplied (split_outcome bytes.now v sides.now rooms.now
        (length log.old)) (length out.old) (length log.old) result out.new log.new }
{
    let mut numbers = [0usize; 2049];
    let n = reading_c::fans::capped(sides.len(), 2049);
    reading_c::fans::bytes_into(sides, n, &mut numbers);
    reply_job(
        Job::Split(v as usize),
        &numbers[..n],
        bytes,
        rooms,
        out,
        log,
    )
}

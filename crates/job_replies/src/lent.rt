// A job in lent blocks: the mesh of an image is read into them, judged and worked on there, and what they then hold is written. Nothing but these blocks stands beside the log.
ghost use Rattle.std.specs.Prelude.{◌≡◌, true, length};
ghost use Rattle.mesh.specs.Given.{mesh_of, sizes, as_rooms};
ghost use Rattle.mesh.specs.Filled.{Fits};
ghost use Rattle.mesh.specs.Blocks.{blocks_in, lent_in};
ghost use Rattle.work.specs.Working.{Roomed};
ghost use Rattle.call_frame.specs.Framed.{Begun};
ghost use Rattle.mesh_calls.specs.Jobs.{job_refusal};
ghost use Rattle.image.specs.Image.{image_of, image_sized_of};
ghost use Rattle.call_words.specs.Rooms.{Limited};
ghost use Rattle.job_replies.specs.Told.{JobReplied, CallReplied};
ghost use Rattle.mesh.specs.At.{mesh_at};

use mesh::Rooms;
use mesh_calls::Job;

// Works on the mesh of an image, which the lent blocks hold, and writes the reply.
fn reply_work(
    job: Job,
    list: &[usize],
    room: Rooms,
    bytes: &[u8],
    points: &mut [f32],
    roots: &mut [usize],
    corners: &mut [usize],
    volumes: &mut [f32],
    ends: &mut [usize],
    lengths: &mut [f32],
    outline: &mut [usize],
    words: &mut [u32],
    out: &mut [u8],
    log: &mut [u8],
) -> u32
    requires { let I = image_of bytes.now in (image_sized_of bytes.now ≡ true) × Limited room (length log.old) × Roomed room
        (lent_in points roots corners volumes ends lengths outline words) × Begun (job_refusal job list.now (image_sized_of bytes.now)
        (mesh_of I) (as_rooms room)) room (mesh_of I) (mesh_at (sizes I) points.old roots.old corners.old volumes.old ends.old lengths.old outline.old) 0 }
    ensures { JobReplied job list bytes room out log result }
{
    let k = mesh_replies::placing::image_counts(bytes);
    let mut gone = [0usize; edge_drops::LIST];
    let ran = perform::calls::work(
        job, list, k, room, points, roots, corners, volumes, ends, lengths, outline, words,
        &mut gone,
    );
    mesh_replies::outcome::reply_ran(
        ran, &gone, points, roots, corners, volumes, ends, lengths, outline, words, out, log,
    )
}

// A job that no check has refused, on the mesh of an image, which the lent blocks hold; 5, 6 or 7 where a room lacks.
fn reply_accepted(
    job: Job,
    list: &[usize],
    room: Rooms,
    bytes: &[u8],
    points: &mut [f32],
    roots: &mut [usize],
    corners: &mut [usize],
    volumes: &mut [f32],
    ends: &mut [usize],
    lengths: &mut [f32],
    outline: &mut [usize],
    words: &mut [u32],
    out: &mut [u8],
    log: &mut [u8],
) -> u32
    requires { let I = image_of bytes.now in (image_sized_of bytes.now ≡ true) × Limited room (length log.old) × Roomed room
        (lent_in points roots corners volumes ends lengths outline words) × (job_refusal job list.now (image_sized_of bytes.now) (mesh_of I)
        (as_rooms room) ≡ 0) × (mesh_at (sizes I) points.old roots.old corners.old volumes.old ends.old lengths.old outline.old ≡ mesh_of I) }
    ensures { JobReplied job list bytes room out log result }
{
    let k = mesh_replies::placing::image_counts(bytes);
    if let Err(e) = call_frame::frame::lacking(k, room) {
        return mesh_replies::outcome::refuse(e.number(), out, log);
    }
    reply_work(
        job, list, room, bytes, points, roots, corners, volumes, ends, lengths, outline, words,
        out, log,
    )
}

// A job on an image that has the sizes of a mesh: it is read into the lent blocks, judged where it stands, and worked on there.
pub fn reply_lent(
    job: Job,
    list: &[usize],
    room: Rooms,
    bytes: &[u8],
    rooms: &[u8],
    points: &mut [f32],
    roots: &mut [usize],
    corners: &mut [usize],
    volumes: &mut [f32],
    ends: &mut [usize],
    lengths: &mut [f32],
    outline: &mut [usize],
    words: &mut [u32],
    out: &mut [u8],
    log: &mut [u8],
) -> u32
    requires { (image_sized_of bytes.now ≡ true) × Limited room (length log.old) × Fits (sizes (image_of bytes.now))
        (blocks_in points roots corners volumes ends lengths outline) × Roomed room
        (lent_in points roots corners volumes ends lengths outline words) }
    ensures { CallReplied job list bytes rooms room out log result }
{
    let k = mesh_replies::placing::image_counts(bytes);
    mesh_replies::placing::place_image(
        bytes, k, points, roots, corners, volumes, ends, lengths, outline,
    );
    let fault = mesh_calls::checks::judge_sized(
        job, list, room, k, points, roots, corners, volumes, ends, lengths, outline,
    );
    if let Err(e) = call_words::with_rooms(fault, rooms.len() == 16) {
        return mesh_replies::outcome::refuse(e.number(), out, log);
    }
    reply_accepted(
        job, list, room, bytes, points, roots, corners, volumes, ends, lengths, outline, words,
        out, log,
    )
}

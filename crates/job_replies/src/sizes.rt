// Local blocks of two sizes for a job on an image. A middling image is tried in blocks of a quarter, with rooms cut down to them: they are cleared sooner, and the answer is the same unless a room lacks.
ghost use Rattle.std.specs.Prelude.{◌≡◌, true, false, length};
ghost use Rattle.image.specs.Image.{image_sized_of};
ghost use Rattle.image.specs.Small.{middling_image};
ghost use Rattle.call_words.specs.Rooms.{Limited, lacks_room_of};
ghost use Rattle.job_replies.specs.Told.{CallReplied, middling_rooms_of, BlocksRoom};

use image::small;
use mesh::Rooms;
use mesh_calls::Job;

// The most entries of a log beside middling blocks.
const MIDDLING_ENTRIES: usize = 512;

// The lengths of the blocks of a quarter.
const MIDDLING_POINTS: usize = mesh::POINT_COLUMNS * small::MIDDLING_PARTICLES;

const MIDDLING_ROOTS: usize = mesh::ROOT_COLUMNS * small::MIDDLING_PARTICLES;

const MIDDLING_CORNERS: usize = mesh::CORNER_COLUMNS * small::MIDDLING_TRIANGLES;

const MIDDLING_VOLUMES: usize = mesh::VOLUME_COLUMNS * small::MIDDLING_TRIANGLES;

const MIDDLING_ENDS: usize = mesh::END_COLUMNS * small::MIDDLING_EDGES;

const MIDDLING_OUTLINE: usize = mesh::SIDE_COLUMNS * small::MIDDLING_BOUNDARY;

const MIDDLING_WORDS: usize = mesh::ENTRY_WORDS * MIDDLING_ENTRIES;

// The lengths of the blocks for the most that a mesh may have.
const POINTS: usize = mesh::POINT_COLUMNS * mesh::PARTICLES;

const ROOTS: usize = mesh::ROOT_COLUMNS * mesh::PARTICLES;

const CORNERS: usize = mesh::CORNER_COLUMNS * mesh::TRIANGLES;

const VOLUMES: usize = mesh::VOLUME_COLUMNS * mesh::TRIANGLES;

const ENDS: usize = mesh::END_COLUMNS * mesh::EDGES;

const OUTLINE: usize = mesh::SIDE_COLUMNS * mesh::BOUNDARY;

const WORDS: usize = mesh::ENTRY_WORDS * mesh::ENTRIES;

// The rooms, each at most what middling blocks have.
fn middling_rooms(room: Rooms) -> Rooms
    ensures { result ≡ middling_rooms_of room }
{
    Rooms {
        particles: mesh::whole::least(small::MIDDLING_PARTICLES, room.particles),
        triangles: mesh::whole::least(small::MIDDLING_TRIANGLES, room.triangles),
        edges: mesh::whole::least(small::MIDDLING_EDGES, room.edges),
        boundary: mesh::whole::least(small::MIDDLING_BOUNDARY, room.boundary),
        log: mesh::whole::least(MIDDLING_ENTRIES, room.log),
    }
}

// A job on an image, in blocks of its own of these lengths, which have room for the image and for the rooms.
fn reply_in<
    const P: usize,
    const R: usize,
    const C: usize,
    const V: usize,
    const E: usize,
    const B: usize,
    const W: usize,
>(
    job: Job,
    list: &[usize],
    room: Rooms,
    bytes: &[u8],
    rooms: &[u8],
    out: &mut [u8],
    log: &mut [u8],
) -> u32
    requires { (image_sized_of bytes.now ≡ true) × Limited room (length log.old)
        × BlocksRoom bytes.now room P R C V E B W }
    ensures { CallReplied job list bytes rooms room out log result }
{
    let mut points = [0.0f32; P];
    let mut roots = [0usize; R];
    let mut corners = [0usize; C];
    let mut volumes = [0.0f32; V];
    let mut ends = [0usize; E];
    let mut lengths = [0.0f32; E];
    let mut outline = [0usize; B];
    let mut words = [0u32; W];
    crate::lent::reply_lent(
        job,
        list,
        room,
        bytes,
        rooms,
        &mut points,
        &mut roots,
        &mut corners,
        &mut volumes,
        &mut ends,
        &mut lengths,
        &mut outline,
        &mut words,
        out,
        log,
    )
}

// A job that is tried in middling blocks. Where they lack room, or the image is larger, 5 to 8 says so; any other number is the answer.
fn reply_tried(
    job: Job,
    list: &[usize],
    room: Rooms,
    bytes: &[u8],
    rooms: &[u8],
    out: &mut [u8],
    log: &mut [u8],
) -> u32
    requires { (image_sized_of bytes.now ≡ true) × Limited room (length log.old) }
    ensures { lacks_room_of result ≡ false → CallReplied job list bytes rooms room out log result }
{
    if small::is_middling(bytes) {
        let few = middling_rooms(room);
        return reply_in::<
            MIDDLING_POINTS,
            MIDDLING_ROOTS,
            MIDDLING_CORNERS,
            MIDDLING_VOLUMES,
            MIDDLING_ENDS,
            MIDDLING_OUTLINE,
            MIDDLING_WORDS,
        >(job, list, few, bytes, rooms, out, log);
    }
    5
}

// A job on an image that has the sizes of a mesh. The large blocks are cleared only where the middling ones do not answer.
pub fn reply_sized(
    job: Job,
    list: &[usize],
    room: Rooms,
    bytes: &[u8],
    rooms: &[u8],
    out: &mut [u8],
    log: &mut [u8],
) -> u32
    requires { (image_sized_of bytes.now ≡ true) × Limited room (length log.old) }
    ensures { CallReplied job list bytes rooms room out log result }
{
    let code = reply_tried(job, list, room, bytes, rooms, out, log);
    if call_words::lacks_room(code) {
        return reply_in::<POINTS, ROOTS, CORNERS, VOLUMES, ENDS, OUTLINE, WORDS>(
            job, list, room, bytes, rooms, out, log,
        );
    }
    code
}

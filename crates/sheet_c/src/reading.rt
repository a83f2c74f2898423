// The bytes of a sheet of either edition read: whether its outline was replaced, the four words of its blade, and the image of its mesh.
ghost use Rattle.std.specs.Prelude.{◌≡◌, length};
ghost use Rattle.lists.specs.Lists.{pick};
ghost use Rattle.model.specs.Reads.{value};
ghost use Rattle.replies.specs.Reply.{Replied};
ghost use Rattle.sheet_c.specs.Sheets.{sheet_reply};
ghost use Rattle.sheet_c.specs.Work.{Storing, blocks_told};

use sheet::Counts;

// The limits of a mesh.
const LIMITS: Counts = Counts {
    particles: mesh::PARTICLES,
    triangles: mesh::TRIANGLES,
    edges: mesh::EDGES,
    boundary: mesh::BOUNDARY,
};

// The word of a truth.
fn flag(b: bool) -> usize
    ensures { result ≡ pick b 1 0 }
{
    if b { 1 } else { 0 }
}

// The reply to a first word, to a blade and to the rows of seven blocks; 4 where its words have no room.
fn reply_blocks(
    first: usize,
    c: Counts,
    points: &[f32],
    roots: &[usize],
    corners: &[usize],
    volumes: &[f32],
    ends: &[usize],
    lengths: &[f32],
    outline: &[usize],
    blade: &[f32],
    out: &mut [u8],
) -> u32
    requires { Storing c (length points.now) (length roots.now) (length corners.now) (length volumes.now) (length ends.now)
        (length lengths.now) (length outline.now) (length blade.now) }
    ensures { Replied (value (blocks_told first c points.now roots.now corners.now
        volumes.now ends.now lengths.now outline.now blade.now)) (length
        out.old) result out.new }
{
    let k = mesh::Counts {
        particles: c.particles,
        triangles: c.triangles,
        edges: c.edges,
        boundary: c.boundary,
        log: 0,
    };
    if out.len()
        < 4 * (9
            + mesh::PARTICLE_WORDS * c.particles
            + 5 * c.triangles
            + 8 * c.edges
            + 2 * c.boundary)
    {
        return replies::reply_refused(4, out);
    }
    image_writing::write_one(out, first);
    image_writing::store_numbers(blade, 1, out);
    image_writing::store(
        k, points, roots, corners, volumes, ends, lengths, outline, 5, out,
    );
    0
}

// A sheet read into local blocks, and the reply to them.
pub fn read_sheet(bytes: &[u8], out: &mut [u8]) -> u32
    ensures { Replied (sheet_reply bytes.now) (length out.old) result out.new }
{
    let mut points = [0.0f32; mesh::PARTICLES * mesh::POINT_COLUMNS];
    let mut roots = [0usize; mesh::ROOT_COLUMNS * mesh::PARTICLES];
    let mut corners = [0usize; mesh::CORNER_COLUMNS * mesh::TRIANGLES];
    let mut volumes = [0.0f32; mesh::VOLUME_COLUMNS * mesh::TRIANGLES];
    let mut ends = [0usize; mesh::END_COLUMNS * mesh::EDGES];
    let mut lengths = [0.0f32; mesh::LENGTH_COLUMNS * mesh::EDGES];
    let mut outline = [0usize; mesh::SIDE_COLUMNS * mesh::BOUNDARY];
    let mut log = [0usize; 6];
    let mut blade = [0.0f32; 4];
    let seen = edition::read::read(
        bytes,
        LIMITS,
        &mut points,
        &mut roots,
        &mut corners,
        &mut volumes,
        &mut ends,
        &mut lengths,
        &mut outline,
        &mut log,
        &mut blade,
    );
    match seen {
        Ok(k) => reply_blocks(
            flag(k.replaced),
            k.counts,
            &points,
            &roots,
            &corners,
            &volumes,
            &ends,
            &lengths,
            &outline,
            &blade,
            out,
        ),
        Err(e) => replies::reply_refused(e.number(), out),
    }
}

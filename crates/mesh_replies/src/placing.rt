// An image read straight into the blocks that a call works in: each column to the front of the one lent for it.
ghost use Rattle.std.specs.Prelude.{◌≡◌, true, [], ◌+◌, ◌*◌, ◌≤◌, length};
ghost use Rattle.std.specs.Float.{nan};
ghost use Rattle.columns.specs.Block.{BlockCopied};
ghost use Rattle.mesh.specs.Given.{mesh_of, sizes};
ghost use Rattle.mesh.specs.Filled.{Fits, lent};
ghost use Rattle.image.specs.Words.{words_from, numbers_from};
ghost use Rattle.image.specs.Image.{image_of, image_sized_of};
ghost use Rattle.mesh.specs.Blocks.{mesh_behind, blocks_in};

use mesh::Counts;

// How many rows each list of an image has that has the sizes of a mesh.
pub fn image_counts(bytes: &[u8]) -> Counts
    requires { image_sized_of bytes.now ≡ true }
    ensures { result ≡ sizes (image_of bytes.now) }
{
    Counts {
        particles: image::word_at(bytes, 0),
        triangles: image::word_at(bytes, 1),
        edges: image::word_at(bytes, 2),
        boundary: image::word_at(bytes, 3),
        log: 0,
    }
}

// Reads columns of n words each, from word `at` on, to the fronts of the columns of a block.
fn place_words(bytes: &[u8], at: usize, n: usize, width: usize, stride: usize, block: &mut [usize])
    requires { (n ≤ stride) × (width * stride ≤ length block.old) × (4 * (at + width * n) ≤ length bytes.now) }
    ensures { BlockCopied 0 n width stride (words_from bytes.now at (width * n)) block.new }
{
    let mut o: usize = 0;
    let mut a: usize = 0;
    for c in 0..width {
        let e = o + stride;
        image::words_into(bytes, at + a, n, &mut block[o..e]);
        o = e;
        a += n;
    }
}

// The same of numbers.
fn place_numbers(bytes: &[u8], at: usize, n: usize, width: usize, stride: usize, block: &mut [f32])
    requires { (n ≤ stride) × (width * stride ≤ length block.old) × (4 * (at + width * n) ≤ length bytes.now) }
    ensures { BlockCopied nan n width stride (numbers_from bytes.now at (width * n)) block.new }
{
    let mut o: usize = 0;
    let mut a: usize = 0;
    for c in 0..width {
        let e = o + stride;
        image::numbers_into(bytes, at + a, n, &mut block[o..e]);
        o = e;
        a += n;
    }
}

// Reads the mesh of an image, whose counts are k, into blocks that have room for it.
pub fn place_image(
    bytes: &[u8],
    k: Counts,
    points: &mut [f32],
    roots: &mut [usize],
    corners: &mut [usize],
    volumes: &mut [f32],
    ends: &mut [usize],
    lengths: &mut [f32],
    outline: &mut [usize],
)
    requires { (image_sized_of bytes.now ≡ true) × (k ≡ sizes (image_of bytes.now))
        × Fits k (blocks_in points roots corners volumes ends lengths outline) }
    ensures { let I = image_of bytes.now in mesh_behind (sizes I) points roots corners volumes ends lengths outline
        ≡ mesh_of I }
{
    let p = k.particles;
    let t = k.triangles;
    let e = k.edges;
    let b = k.boundary;
    let triangles = 4 + mesh::PARTICLE_WORDS * p;
    let edges = triangles + 5 * t;
    place_numbers(
        bytes,
        4,
        p,
        mesh::POINT_COLUMNS,
        points.len() / mesh::POINT_COLUMNS,
        points,
    );
    place_words(
        bytes,
        4 + mesh::POINT_COLUMNS * p,
        p,
        2,
        roots.len() / 2,
        roots,
    );
    place_words(bytes, triangles, t, 3, corners.len() / 3, corners);
    place_numbers(bytes, triangles + 3 * t, t, 2, volumes.len() / 2, volumes);
    place_words(bytes, edges, e, 4, ends.len() / 4, ends);
    place_numbers(bytes, edges + 4 * e, e, 4, lengths.len() / 4, lengths);
    place_words(bytes, edges + 8 * e, b, 2, outline.len() / 2, outline);
}

// Small and middling images: local blocks for them are a sixteenth and a quarter of those for the most that a mesh may have, and are cleared as much sooner.
ghost use Rattle.std.specs.Prelude.{◌≡◌, ◌≤◌, length};
ghost use Rattle.image.specs.Small.{counts_in, small_image, middling_image};

// The most particles of a small image.
pub const PARTICLES: usize = 64;

// The most triangles of a small image.
pub const TRIANGLES: usize = 64;

// The most edges of a small image.
pub const EDGES: usize = 128;

// The most boundary entries of a small image.
pub const BOUNDARY: usize = 128;

// The most sides at a particle of a small image, whose fan is of triangles or of edges.
pub const SIDES: usize = 128;

// The most particles of a middling image.
pub const MIDDLING_PARTICLES: usize = 256;

// The most triangles of a middling image.
pub const MIDDLING_TRIANGLES: usize = 256;

// The most edges of a middling image.
pub const MIDDLING_EDGES: usize = 512;

// The most boundary entries of a middling image.
pub const MIDDLING_BOUNDARY: usize = 512;

// The counts of an image are at most these.
pub fn within(
    bytes: &[u8],
    particles: usize,
    triangles: usize,
    edges: usize,
    boundary: usize,
) -> bool
    requires { 16 ≤ length bytes.now }
    ensures { result ≡ counts_in particles triangles edges boundary bytes.now }
{
    let p = crate::word_at(bytes, 0);
    let t = crate::word_at(bytes, 1);
    let e = crate::word_at(bytes, 2);
    let b = crate::word_at(bytes, 3);
    let z = judge::tests::both(p <= particles, t <= triangles);
    let z = judge::tests::both(z, e <= edges);
    judge::tests::both(z, b <= boundary)
}

// The counts of an image are those of a small one.
pub fn is_small(bytes: &[u8]) -> bool
    requires { 16 ≤ length bytes.now }
    ensures { result ≡ small_image bytes.now }
{
    within(bytes, PARTICLES, TRIANGLES, EDGES, BOUNDARY)
}

// The counts of an image are those of a middling one, or of a small one.
pub fn is_middling(bytes: &[u8]) -> bool
    requires { 16 ≤ length bytes.now }
    ensures { result ≡ middling_image bytes.now }
{
    within(
        bytes,
        MIDDLING_PARTICLES,
        MIDDLING_TRIANGLES,
        MIDDLING_EDGES,
        MIDDLING_BOUNDARY,
    )
}

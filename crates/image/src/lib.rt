// A mesh as one run of bytes, read into blocks. (Written: crate image_writing.)
#![tactic(auto)]

pub mod small;

ghost use Rattle.std.specs.Prelude.{◌≡◌, ◌+◌, ◌*◌, ◌%◌, ◌≤◌, ◌<◌, length, take, ltb};
ghost use Rattle.lists.specs.Lists.{pick};
ghost use Rattle.image.specs.Words.{word_at_of, number_of, words_from, numbers_from};
ghost use Rattle.image.specs.Image.{image_fits_of, counts_within_of, image_sized_of};
ghost use Rattle.image.specs.Loads.{Loadable, Loaded};

use mesh::Counts;

// Word i of the bytes.
pub fn word_at(bytes: &[u8], i: usize) -> usize
    requires { 4 * i + 4 ≤ length bytes.now }
    ensures { (result ≡ word_at_of bytes.now i) × (result < 4294967296) }
{
    let at = 4 * i;
    let a = usize::from(bytes[at]);
    let b = usize::from(bytes[at + 1]);
    let c = usize::from(bytes[at + 2]);
    let d = usize::from(bytes[at + 3]);
    a + 256 * b + 65536 * c + 16777216 * d
}

// The bits of a word that its number keeps: those of an infinity where the word is a NaN pattern, else all. (A machine takes several words at a time so.)
fn kept(word: usize) -> u32
    ensures { result ≡ pick (ltb 2139095040 (word % 2147483648)) 2139095040 4294967295 }
{
    if 2139095040 < word % 2147483648 {
        return 2139095040;
    }
    4294967295
}

// The number that a word is the bit pattern of: an infinity for a NaN pattern.
pub fn number_of(word: usize) -> f32
    requires { word < 4294967296 }
    ensures { result ≡ number_of word }
{
    f32::from_bits(word as u32 & kept(word))
}

// Writes n words, from word `at` on, to the front of out.
pub fn words_into(bytes: &[u8], at: usize, n: usize, out: &mut [usize])
    requires { (4 * (at + n) ≤ length bytes.now) × (n ≤ length out.old) }
    ensures { take n out.new ≡ words_from bytes.now at n }
{
    for i in 0..n {
        out[i] = word_at(bytes, at + i);
    }
}

// Writes n numbers, from word `at` on, to the front of out.
pub fn numbers_into(bytes: &[u8], at: usize, n: usize, out: &mut [f32])
    requires { (4 * (at + n) ≤ length bytes.now) × (n ≤ length out.old) }
    ensures { take n out.new ≡ numbers_from bytes.now at n }
{
    for i in 0..n {
        out[i] = number_of(word_at(bytes, at + i));
    }
}

// The bytes are as many as the four counts say.
pub fn image_fits(image: &[u8]) -> bool
    ensures { result ≡ image_fits_of image.now }
{
    if image.len() < 16 {
        return false;
    }
    let p = word_at(image, 0);
    let t = word_at(image, 1);
    let e = word_at(image, 2);
    let b = word_at(image, 3);
    image.len() == 4 * (4 + mesh::PARTICLE_WORDS * p + 5 * t + 8 * e + 2 * b)
}

// The counts are within the limits.
pub fn counts_within(image: &[u8]) -> bool
    requires { 16 ≤ length image.now }
    ensures { result ≡ counts_within_of image.now }
{
    let p = word_at(image, 0);
    let t = word_at(image, 1);
    let e = word_at(image, 2);
    let b = word_at(image, 3);
    let z = judge::tests::both(p <= mesh::PARTICLES, t <= mesh::TRIANGLES);
    let z = judge::tests::both(z, e <= mesh::EDGES);
    judge::tests::both(z, b <= mesh::BOUNDARY)
}

// The image has the sizes of a mesh.
pub fn image_sized(image: &[u8]) -> bool
    ensures { result ≡ image_sized_of image.now }
{
    if image_fits(image) {
        return counts_within(image);
    }
    false
}

// Reads the blocks of an image into the fronts of seven blocks.
pub fn load(
    image: &[u8],
    points: &mut [f32],
    roots: &mut [usize],
    corners: &mut [usize],
    volumes: &mut [f32],
    ends: &mut [usize],
    lengths: &mut [f32],
    outline: &mut [usize],
)
    requires { Loadable image.now (length points.old) (length roots.old) (length corners.old) (length volumes.old)
        (length ends.old) (length lengths.old) (length outline.old) }
    ensures { Loaded image.now points.new roots.new corners.new volumes.new
        ends.new lengths.new outline.new }
{
    let p = word_at(image, 0);
    let t = word_at(image, 1);
    let e = word_at(image, 2);
    let b = word_at(image, 3);
    let triangles = 4 + mesh::PARTICLE_WORDS * p;
    let edges = triangles + 5 * t;
    numbers_into(image, 4, mesh::POINT_COLUMNS * p, points);
    words_into(image, 4 + mesh::POINT_COLUMNS * p, 2 * p, roots);
    words_into(image, triangles, 3 * t, corners);
    numbers_into(image, triangles + 3 * t, 2 * t, volumes);
    words_into(image, edges, 4 * e, ends);
    numbers_into(image, edges + 4 * e, 4 * e, lengths);
    words_into(image, edges + 8 * e, 2 * b, outline);
}

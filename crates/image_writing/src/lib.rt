// The words of an answer written to bytes, and the image of a mesh from its blocks.
#![tactic(auto)]

ghost use Rattle.std.specs.Prelude.{◌≡◌, ◌+◌, ◌*◌, ◌/◌, ◌%◌, ◌≤◌, ◌<◌, [], ◌∷◌, length, take};
ghost use Rattle.std.specs.Float.{binary32};
ghost use Rattle.std.specs.Float.Ieee.{to_bits};
ghost use Rattle.lists.specs.Lists.{padded};
ghost use Rattle.lists.specs.LeftOut.{left_out};
ghost use Rattle.image.specs.Words.{written, put_word_of, put_words, bits_in_of};
ghost use Rattle.image_writing.specs.Stores.{left_fronts, ColumnPlaced, Placed, block_words, left_words, Storable, StorableWithout};

use mesh::Counts;

// Puts 0 into every byte.
pub fn clear_bytes(out: &mut [u8])
    ensures { out.new ≡ written (length out.old) [] }
{
    columns::clear(0, out);
}

// Puts 0 into every byte from place n on: behind what was written to the front, whatever stood there.
pub fn clear_bytes_from(out: &mut [u8], n: usize)
    requires { n ≤ length out.old }
    ensures { out.new ≡ padded (length out.old) 0 (take n out.old) }
{
    columns::clear(n, out);
}

// The low byte of a number.
fn low(w: usize) -> u8
    ensures { result ≡ w % 256 }
{
    (w % 256) as u8
}

// Writes the four bytes of w as word i.
pub fn put_word(out: &mut [u8], i: usize, w: usize)
    requires { 4 * i + 4 ≤ length out.old }
    ensures { out.new ≡ put_word_of out.old i w }
{
    let at = 4 * i;
    out[at] = low(w);
    out[at + 1] = low(w / 256);
    out[at + 2] = low(w / 65536);
    out[at + 3] = low(w / 16777216);
}

// Writes one word, and 0 behind it.
pub fn write_one(out: &mut [u8], w: usize)
    requires { 4 ≤ length out.old }
    ensures { out.new ≡ written (length out.old) (w ∷ []) }
{
    clear_bytes(out);
    put_word(out, 0, w);
}

// Writes two words, and 0 behind them.
pub fn write_two(out: &mut [u8], w: usize, v: usize)
    requires { 8 ≤ length out.old }
    ensures { out.new ≡ written (length out.old) (w ∷ v ∷ []) }
{
    write_one(out, w);
    put_word(out, 1, v);
}

// Writes one word, then the first n of a table, and 0 behind them.
pub fn words_out(out: &mut [u8], first: usize, table: &[usize], n: usize)
    requires { (4 * n + 4 ≤ length out.old) × (n ≤ length table.now) }
    ensures { out.new ≡ written (length out.old) (first ∷ take n table.now) }
{
    write_one(out, first);
    for i in 0..n {
        put_word(out, i + 1, table[i]);
    }
}

// The bits of a number.
pub fn bits_of(x: f32) -> usize
    ensures { result ≡ to_bits binary32 x }
{
    if x != x {
        return 2143289344;
    }
    f32::to_bits(x) as usize
}

// Writes words from word `at` on.
pub fn store_words(words: &[usize], at: usize, out: &mut [u8])
    requires { 4 * (at + length words.now) ≤ length out.old }
    ensures { out.new ≡ put_words out.old at words.now }
{
    for i in 0..words.len() {
        put_word(out, at + i, words[i]);
    }
}

// Writes the bits of numbers from word `at` on.
pub fn store_numbers(numbers: &[f32], at: usize, out: &mut [u8])
    requires { 4 * (at + length numbers.now) ≤ length out.old }
    ensures { out.new ≡ put_words out.old at (bits_in_of numbers.now) }
{
    for i in 0..numbers.len() {
        put_word(out, at + i, bits_of(numbers[i]));
    }
}

// Writes a column of words from word `at` on, without the first s listed places: a run between each two of them.
fn store_words_left(column: &[usize], s: usize, gone: &[usize], at: usize, out: &mut [u8])
    requires { ColumnPlaced (length column.now) s gone.now at (length out.old) }
    ensures { out.new ≡ put_words out.old at (left_out (take s gone.now) column.now) }
{
    let mut from: usize = 0;
    let mut to: usize = at;
    for j in 0..s {
        let end = gone[j];
        store_words(&column[from..end], to, out);
        to += end - from;
        from = end + 1;
    }
    let end = column.len();
    store_words(&column[from..end], to, out);
}

// Writes the first n places of each column of a block of words, without the first s listed places, from word `at` on.
fn store_words_block(
    block: &[usize],
    width: usize,
    n: usize,
    s: usize,
    gone: &[usize],
    at: usize,
    out: &mut [u8],
)
    requires { Placed width n s gone.now at (length block.now) (length out.old) }
    ensures { out.new ≡ put_words out.old at
        (left_fronts width n (length block.now / width) (take s gone.now) block.now) }
{
    let stride = block.len() / width;
    let mut o: usize = 0;
    let mut to: usize = at;
    for c in 0..width {
        let end = o + n;
        store_words_left(&block[o..end], s, gone, to, out);
        o += stride;
        to += n - s;
    }
}

// Writes a column of numbers from word `at` on, without the first s listed places: a run between each two of them.
fn store_numbers_left(column: &[f32], s: usize, gone: &[usize], at: usize, out: &mut [u8])
    requires { ColumnPlaced (length column.now) s gone.now at (length out.old) }
    ensures { out.new ≡ put_words out.old at
        (bits_in_of (left_out (take s gone.now) column.now)) }
{
    let mut from: usize = 0;
    let mut to: usize = at;
    for j in 0..s {
        let end = gone[j];
        store_numbers(&column[from..end], to, out);
        to += end - from;
        from = end + 1;
    }
    let end = column.len();
    store_numbers(&column[from..end], to, out);
}

// Writes the first n places of each column of a block of numbers, without the first s listed places, from word `at` on.
fn store_numbers_block(
    block: &[f32],
    width: usize,
    n: usize,
    s: usize,
    gone: &[usize],
    at: usize,
    out: &mut [u8],
)
    requires { Placed width n s gone.now at (length block.now) (length out.old) }
    ensures { out.new ≡ put_words out.old at
        (bits_in_of (left_fronts width n (length block.now / width) (take s gone.now) block.now)) }
{
    let stride = block.len() / width;
    let mut o: usize = 0;
    let mut to: usize = at;
    for c in 0..width {
        let end = o + n;
        store_numbers_left(&block[o..end], s, gone, to, out);
        o += stride;
        to += n - s;
    }
}

// Writes four words from word `at` on.
pub fn store_four(at: usize, a: usize, b: usize, c: usize, d: usize, out: &mut [u8])
    requires { 4 * (at + 4) ≤ length out.old }
    ensures { out.new ≡ put_words out.old at (a ∷ b ∷ c ∷ d ∷ []) }
{
    put_word(out, at, a);
    put_word(out, at + 1, b);
    put_word(out, at + 2, c);
    put_word(out, at + 3, d);
}

// Writes the image of the first rows of seven blocks without the first s listed edges, from word `at` on. Only edges are listed.
pub fn store_without(
    k: Counts,
    s: usize,
    gone: &[usize],
    points: &[f32],
    roots: &[usize],
    corners: &[usize],
    volumes: &[f32],
    ends: &[usize],
    lengths: &[f32],
    outline: &[usize],
    at: usize,
    out: &mut [u8],
)
    requires { StorableWithout k s gone.now (length points.now) (length roots.now) (length corners.now) (length volumes.now)
        (length ends.now) (length lengths.now) (length outline.now) at (length out.old) }
    ensures { out.new ≡ put_words out.old at (left_words k (take s gone.now) points.now
        roots.now corners.now volumes.now ends.now lengths.now
        outline.now) }
{
    let p = k.particles;
    let t = k.triangles;
    let e = k.edges;
    let b = k.boundary;
    let rows = e + s;
    let particles = at + 4;
    let behind_points = particles + mesh::POINT_COLUMNS * p;
    let triangles = particles + mesh::PARTICLE_WORDS * p;
    let edges = triangles + 5 * t;
    store_four(at, p, t, e, b, out);
    store_numbers_block(points, mesh::POINT_COLUMNS, p, 0, gone, particles, out);
    store_words_block(roots, 2, p, 0, gone, behind_points, out);
    store_words_block(corners, 3, t, 0, gone, triangles, out);
    store_numbers_block(volumes, 2, t, 0, gone, triangles + 3 * t, out);
    store_words_block(ends, 4, rows, s, gone, edges, out);
    store_numbers_block(lengths, 4, rows, s, gone, edges + 4 * e, out);
    store_words_block(outline, 2, b, 0, gone, edges + 8 * e, out);
}

// Writes the image of the first rows of seven blocks, from word `at` on.
pub fn store(
    k: Counts,
    points: &[f32],
    roots: &[usize],
    corners: &[usize],
    volumes: &[f32],
    ends: &[usize],
    lengths: &[f32],
    outline: &[usize],
    at: usize,
    out: &mut [u8],
)
    requires { Storable k (length points.now) (length roots.now) (length corners.now) (length volumes.now) (length ends.now)
        (length lengths.now) (length outline.now) at (length out.old) }
    ensures { out.new ≡ put_words out.old at (block_words k points.now roots.now
        corners.now volumes.now ends.now lengths.now outline.now) }
{
    let none: [usize; 1] = [0];
    store_without(
        k, 0, &none, points, roots, corners, volumes, ends, lengths, outline, at, out,
    );
}

// The elements of a mesh image in one table, read from its bytes: no block is filled on the way.
#![tactic(auto)]

ghost use Rattle.std.specs.Prelude.{◌≡◌, true, ◌+◌, ◌*◌, ◌≤◌, length};
ghost use Rattle.model.specs.Valid.{indices_fit_of};
ghost use Rattle.model.specs.Elements.{triangles_from, straps_from};
ghost use Rattle.mesh.specs.At.{triangles_at, edges_at};
ghost use Rattle.mesh.specs.Given.{mesh_of};
ghost use Rattle.elements.specs.Table.{Tabled};
ghost use Rattle.mesh_tables.specs.Accepted.{MeshTabled};
ghost use Rattle.image.specs.Words.{word_at_of, number_of, words_from, numbers_from};
ghost use Rattle.image.specs.Image.{image_of, image_sized_of};
ghost use Rattle.image_elements.specs.Room.{ElementsRoom, RowsRoom};

use mesh_tables::tables::Shape;

// The number of word i, as `image::load` reads it.
fn number_at(bytes: &[u8], i: usize) -> f32
    requires { 4 * i + 4 ≤ length bytes.now }
    ensures { result ≡ number_of (word_at_of bytes.now i) }
{
    image::number_of(image::word_at(bytes, i))
}

// The table of t triangles, whose columns stand from word `at` on: three of corners, then the volumes.
fn triangle_rows(
    at: usize,
    t: usize,
    bytes: &[u8],
    numbers: &mut [usize],
    verts: &mut [usize],
    measures: &mut [f32],
)
    requires { RowsRoom 3 5 at t (length bytes.now) (length numbers.old) (length verts.old) (length measures.old) }
    ensures { Tabled 3 (triangles_from 0 (triangles_at t (words_from bytes.now at (3 * t)) (numbers_from bytes.now
        (at + 3 * t) (2 * t)))) t numbers.new verts.new measures.new }
{
    let mut o: usize = 0;
    for i in 0..t {
        numbers[i] = i;
        verts[o] = image::word_at(bytes, at + i);
        verts[o + 1] = image::word_at(bytes, at + t + i);
        verts[o + 2] = image::word_at(bytes, at + 2 * t + i);
        measures[i] = float::abs::abs(number_at(bytes, at + 3 * t + i));
        o += 3;
    }
}

// The table of the structural ones among e edges, whose columns stand from word `at` on: two of ends, the flags, and behind a fourth the rest and the initial lengths.
// Returns how many they are.
fn strap_rows(
    at: usize,
    e: usize,
    bytes: &[u8],
    numbers: &mut [usize],
    verts: &mut [usize],
    measures: &mut [f32],
) -> usize
    requires { RowsRoom 2 8 at e (length bytes.now) (length numbers.old) (length verts.old) (length measures.old) }
    ensures { Tabled 2 (straps_from 0 (edges_at e (words_from bytes.now at (4 * e)) (numbers_from bytes.now
        (at + 4 * e) (4 * e)))) result numbers.new verts.new measures.new }
{
    let mut n: usize = 0;
    let mut o: usize = 0;
    for i in 0..e {
        if image::word_at(bytes, at + 2 * e + i) == 1 {
            numbers[n] = i;
            verts[o] = image::word_at(bytes, at + i);
            verts[o + 1] = image::word_at(bytes, at + e + i);
            measures[n] = number_at(bytes, at + 5 * e + i);
            o += 2;
            n += 1;
        }
    }
    n
}

// The table of all elements of an image whose mesh was not refused. (A mesh of nothing has the shape of one of straps.)
pub fn image_table(
    bytes: &[u8],
    numbers: &mut [usize],
    verts: &mut [usize],
    measures: &mut [f32],
) -> Shape
    requires { (image_sized_of bytes.now ≡ true) × (indices_fit_of (mesh_of (image_of bytes.now)) ≡ true)
        × ElementsRoom bytes.now (length numbers.old) (length verts.old) (length measures.old) }
    ensures { MeshTabled (image_of bytes.now) result.n result.k result.others numbers.new verts.new
        measures.new }
{
    let p = image::word_at(bytes, 0);
    let t = image::word_at(bytes, 1);
    let at = 4 + mesh::PARTICLE_WORDS * p;
    if t != 0 {
        triangle_rows(at, t, bytes, numbers, verts, measures);
        return Shape {
            n: t,
            k: 3,
            others: 1,
        };
    }
    let e = image::word_at(bytes, 2);
    let n = strap_rows(at, e, bytes, numbers, verts, measures);
    Shape { n, k: 2, others: 0 }
}

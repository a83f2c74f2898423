// The questions that the elements of a mesh image answer: its pieces and its measures. One table of the elements is read from the bytes, small for a small image, and no
// block is filled. Once it is made, its numbers are not needed, and their places hold the forest of the pieces, or the marks of a list.
ghost use Rattle.std.specs.Prelude.{◌≡◌, true, ◌≤◌, length};
ghost use Rattle.mesh.specs.Refused.{answer_in};
ghost use Rattle.model.specs.Elements.{rest_measure, the_rest_measure_of};
ghost use Rattle.model.specs.Pieces.{pieces as pieces_of};
ghost use Rattle.model.specs.Reads.{pieces_call, rest_measure_call, rest_measure_of_call};
ghost use Rattle.mesh.specs.Given.{mesh_of, sizes_fit_of};
ghost use Rattle.image.specs.Image.{image_of, image_sized_of};
ghost use Rattle.reading_c.specs.Elements.{TableRoom, MarksRoom};

use image::small;
use mesh::refusals::Refusal;

// The most elements of a small image.
const FEW: usize = small::EDGES;

// The most corners of a small image's elements.
const FEW_CORNERS: usize = 2 * FEW;

// The most elements of a mesh.
const MOST: usize = mesh::ELEMENTS;

// The most corners of a mesh's elements.
const MOST_CORNERS: usize = mesh::ELEMENT_CORNERS;

// The measure of an image, by three lent tables.
fn sum_by(bytes: &[u8], numbers: &mut [usize], verts: &mut [usize], measures: &mut [f32]) -> f32
    requires { TableRoom bytes.now (length numbers.old) (length verts.old) (length measures.old) }
    ensures { result ≡ rest_measure (mesh_of (image_of bytes.now)) }
{
    let s = image_elements::image_table(bytes, numbers, verts, measures);
    elements::sum_of(s.n, measures)
}

// The measure of an image, by tables of its own for N elements and their C corners.
fn sum_in<const N: usize, const C: usize>(bytes: &[u8]) -> f32
    requires { TableRoom bytes.now N C N × (N ≤ 2048) × (C ≤ 4096) }
    ensures { result ≡ rest_measure (mesh_of (image_of bytes.now)) }
{
    let mut numbers = [0usize; N];
    let mut verts = [0usize; C];
    let mut measures = [0.0f32; N];
    sum_by(bytes, &mut numbers, &mut verts, &mut measures)
}

// The measure of an image that has the sizes of a mesh.
pub fn measure(bytes: &[u8]) -> Result<f32, Refusal>
    requires { image_sized_of bytes.now ≡ true }
    ensures { let G = image_of bytes.now in answer_in result ≡ rest_measure_call (sizes_fit_of G) (mesh_of G) }
{
    image_checks::image_fault(bytes)?;
    if small::is_small(bytes) {
        return Ok(sum_in::<FEW, FEW_CORNERS>(bytes));
    }
    Ok(sum_in::<MOST, MOST_CORNERS>(bytes))
}

// The pieces of an image, by three lent tables, and by two more that are as long as that of the corners.
fn pieces_by(
    bytes: &[u8],
    numbers: &mut [usize],
    verts: &mut [usize],
    measures: &mut [f32],
    links: &mut [u16],
    lows: &mut [u16],
) -> usize
    requires { TableRoom bytes.now (length numbers.old) (length verts.old) (length measures.old)
        × (length verts.old ≤ length links.old) × (length verts.old ≤ length lows.old) }
    ensures { result ≡ pieces_of (mesh_of (image_of bytes.now)) }
{
    let mut heads = [0u16; mesh::ELEMENT_CORNERS];
    let s = image_elements::image_table(bytes, numbers, verts, measures);
    let n = s.n;
    pieces::sides::count_sides(n, s.k, verts, &mut heads, links, lows, &mut numbers[..n])
}

// The pieces of an image, by tables of its own for N elements and their C corners.
fn pieces_in<const N: usize, const C: usize>(bytes: &[u8]) -> usize
    requires { TableRoom bytes.now N C N × (N ≤ 2048) × (C ≤ 4096) }
    ensures { result ≡ pieces_of (mesh_of (image_of bytes.now)) }
{
    let mut numbers = [0usize; N];
    let mut verts = [0usize; C];
    let mut measures = [0.0f32; N];
    let mut links = [0u16; C];
    let mut lows = [0u16; C];
    pieces_by(
        bytes,
        &mut numbers,
        &mut verts,
        &mut measures,
        &mut links,
        &mut lows,
    )
}

// The pieces of an image that has the sizes of a mesh.
pub fn pieces(bytes: &[u8]) -> Result<usize, Refusal>
    requires { image_sized_of bytes.now ≡ true }
    ensures { let G = image_of bytes.now in answer_in result ≡ pieces_call (sizes_fit_of G) (mesh_of G) }
{
    image_checks::image_fault(bytes)?;
    if small::is_small(bytes) {
        return Ok(pieces_in::<FEW, FEW_CORNERS>(bytes));
    }
    Ok(pieces_in::<MOST, MOST_CORNERS>(bytes))
}

// The measure of what lies in a list of particles of an image of p of them, by three lent tables.
fn listed_by(
    bytes: &[u8],
    p: usize,
    list: &[usize],
    numbers: &mut [usize],
    verts: &mut [usize],
    measures: &mut [f32],
) -> f32
    requires { TableRoom bytes.now (length numbers.old) (length verts.old) (length measures.old)
        × MarksRoom bytes.now p list.now (length numbers.old) }
    ensures { result ≡ the_rest_measure_of (mesh_of (image_of bytes.now)) list.now }
{
    let s = image_elements::image_table(bytes, numbers, verts, measures);
    elements::measure_within(s.n, s.k, verts, measures, list, &mut numbers[..p])
}

// The same by tables of its own for N elements and their C corners.
fn listed_in<const N: usize, const C: usize>(bytes: &[u8], p: usize, list: &[usize]) -> f32
    requires { TableRoom bytes.now N C N × MarksRoom bytes.now p list.now N × (N ≤ 2048) × (C ≤ 4096) }
    ensures { result ≡ the_rest_measure_of (mesh_of (image_of bytes.now)) list.now }
{
    let mut numbers = [0usize; N];
    let mut verts = [0usize; C];
    let mut measures = [0.0f32; N];
    listed_by(bytes, p, list, &mut numbers, &mut verts, &mut measures)
}

// The measure of what lies in a list of particles of an image that has the sizes of a mesh: 4 where the list does not rise strictly, or names a particle that is absent.
pub fn measure_of(bytes: &[u8], list: &[usize]) -> Result<f32, Refusal>
    requires { image_sized_of bytes.now ≡ true }
    ensures { let G = image_of bytes.now in
        answer_in result ≡ rest_measure_of_call (sizes_fit_of G) (mesh_of G) list.now }
{
    image_checks::image_fault(bytes)?;
    let p = image::word_at(bytes, 0);
    if !arguments::tests::rising_below(list, p) {
        return Err(Refusal::Argument);
    }
    if small::is_small(bytes) {
        return Ok(listed_in::<FEW, FEW_CORNERS>(bytes, p, list));
    }
    Ok(listed_in::<MOST, MOST_CORNERS>(bytes, p, list))
}

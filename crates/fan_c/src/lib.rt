// The fan of a particle of a mesh image: the numbers of its elements, in the order in which sides are given for them. They are read from the image's bytes.
#![tactic(auto)]

ghost use Rattle.std.specs.Prelude.{◌≡◌, true, List, ◌+◌, ◌*◌, ◌≤◌, Float, length};
ghost use Rattle.mesh.specs.Given.{mesh_of};
ghost use Rattle.mesh_tables.specs.Fans.{NumbersRead, triangles_with, straps_with};
ghost use Rattle.image.specs.Words.{words_from};
ghost use Rattle.image.specs.Image.{image_of, image_sized_of};
ghost use Rattle.replies.specs.Reply.{Replied};
ghost use Rattle.fan_c.specs.Fans.{fan_call, fan_reply};
ghost use Rattle.fan_c.specs.Work.{Listed, Answered, Tellable, found_words};

use mesh::refusals::Refusal;
use mesh_tables::fans;

// Writes the numbers of the triangles that hold v, whose corners stand from word `at` on. Returns how many they are.
fn triangle_numbers(bytes: &[u8], at: usize, t: usize, v: usize, numbers: &mut [usize]) -> usize
    requires { (4 * (at + 3 * t) ≤ length bytes.now) × (t ≤ length numbers.old) }
    ensures { (result ≤ t) × ((volumes : List Float)
        → NumbersRead (triangles_with v t (words_from bytes.now at (3 * t)) volumes) result numbers.new) }
{
    let second = at + t;
    let third = second + t;
    let mut r: usize = 0;
    for i in 0..t {
        let a = image::word_at(bytes, at + i);
        let b = image::word_at(bytes, second + i);
        let c = image::word_at(bytes, third + i);
        if fans::triangle_holds(v, a, b, c) {
            numbers[r] = i;
            r += 1;
        }
    }
    r
}

// Writes the numbers of the straps that hold v, among e edges that stand from word `at` on. Returns how many they are.
fn strap_numbers(bytes: &[u8], at: usize, e: usize, v: usize, numbers: &mut [usize]) -> usize
    requires { (4 * (at + 4 * e) ≤ length bytes.now) × (e ≤ length numbers.old) }
    ensures { (result ≤ e) × ((lengths : List Float)
        → NumbersRead (straps_with v e (words_from bytes.now at (4 * e)) lengths) result numbers.new) }
{
    let second = at + e;
    let third = second + e;
    let mut r: usize = 0;
    for i in 0..e {
        let a = image::word_at(bytes, at + i);
        let b = image::word_at(bytes, second + i);
        let structural = image::word_at(bytes, third + i);
        if fans::strap_holds(v, structural, a, b) {
            numbers[r] = i;
            r += 1;
        }
    }
    r
}

// Writes the numbers of v's fan to the front of a table: triangles if there are any, else straps. Returns how many they are.
// (A mesh without a triangle and without a strap is of nothing, and no strap is found in it.)
fn fan_numbers(bytes: &[u8], v: usize, numbers: &mut [usize]) -> usize
    requires { (image_sized_of bytes.now ≡ true) × (2048 ≤ length numbers.old) }
    ensures { Listed (image_of bytes.now) v result numbers.new }
{
    let p = image::word_at(bytes, 0);
    let t = image::word_at(bytes, 1);
    let e = image::word_at(bytes, 2);
    let triangles = 4 + mesh::PARTICLE_WORDS * p;
    if t != 0 {
        return triangle_numbers(bytes, triangles, t, v, numbers);
    }
    strap_numbers(bytes, triangles + 5 * t, e, v, numbers)
}

// The fan of particle v of an image that has the sizes of a mesh: the faults of the mesh, 4 for an absent particle, or the numbers at the front of a table. Returns how many they are.
fn image_fan(bytes: &[u8], v: usize, numbers: &mut [usize]) -> Result<usize, Refusal>
    requires { (image_sized_of bytes.now ≡ true) × (2048 ≤ length numbers.old) }
    ensures { Answered (fan_call (image_sized_of bytes.now) (mesh_of (image_of bytes.now)) v) result
        numbers.new }
{
    image_checks::image_fault(bytes)?;
    if v < image::word_at(bytes, 0) {
        let n = fan_numbers(bytes, v, numbers);
        return Ok(n);
    }
    Err(Refusal::Argument)
}

// The reply to a count whose numbers are the first of a table.
fn reply_found(a: Result<usize, Refusal>, numbers: &[usize], out: &mut [u8]) -> u32
    requires { Tellable a (length numbers.now) }
    ensures { Replied (found_words a numbers.now) (length out.old) result out.new }
{
    match a {
        Err(e) => {
            return replies::reply_refused(e.number(), out);
        }
        Ok(n) => {
            return replies::reply_words(n, &numbers[..n], out);
        }
    }
}

// The fan of particle v of a mesh image.
pub fn fan(bytes: &[u8], v: usize, out: &mut [u8]) -> u32
    ensures { Replied (fan_reply bytes.now v) (length out.old) result out.new }
{
    if image::image_sized(bytes) {
        let mut numbers = [0usize; mesh::ELEMENTS];
        let found = image_fan(bytes, v, &mut numbers);
        return reply_found(found, &numbers, out);
    }
    replies::reply_refused(1, out)
}

// The groups of a tiny image, such as a fan alone: its blocks are so small that they are cleared in less time than a call touches the pages of the large ones.
ghost use Rattle.std.specs.Prelude.{◌≡◌, true, ◌≤◌, length};
ghost use Rattle.image.specs.Image.{image_sized_of};
ghost use Rattle.image.specs.Loads.{Loadable};
ghost use Rattle.reading_replies.specs.Replies.{Replied};
ghost use Rattle.reading_c.specs.Questions.{question_reply};
ghost use Rattle.reading_c.specs.Tiny.{tiny_image};
ghost use Rattle.reading_c.specs.declared.Question.TheVariants.{Groups};

use crate::{Question, questions};
use image::small;

// The most particles of a tiny image.
const PARTICLES: usize = 16;

// The most triangles of a tiny image.
const TRIANGLES: usize = 16;

// The most edges of a tiny image.
const EDGES: usize = 32;

// The most boundary entries of a tiny image.
const BOUNDARY: usize = 32;

// The counts of an image are those of a tiny one.
fn is_tiny(bytes: &[u8]) -> bool
    requires { 16 ≤ length bytes.now }
    ensures { result ≡ tiny_image bytes.now }
{
    small::within(bytes, PARTICLES, TRIANGLES, EDGES, BOUNDARY)
}

// The groups that few sides make in an image that has the sizes of a mesh, by seven lent blocks that have room for it.
fn groups_loaded(
    v: usize,
    list: &[usize],
    bytes: &[u8],
    points: &mut [f32],
    roots: &mut [usize],
    corners: &mut [usize],
    volumes: &mut [f32],
    ends: &mut [usize],
    lengths: &mut [f32],
    outline: &mut [usize],
    out: &mut [u8],
) -> u32
    requires { (image_sized_of bytes.now ≡ true) × (length list.now ≤ 128)
        × Loadable bytes.now (length points.old) (length roots.old) (length corners.old) (length volumes.old) (length ends.old)
        (length lengths.old) (length outline.old) }
    ensures { Replied (question_reply (Groups v) bytes.now list.now) (length out.old) result
        out.new }
{
    let p = image::word_at(bytes, 0);
    let t = image::word_at(bytes, 1);
    let e = image::word_at(bytes, 2);
    let b = image::word_at(bytes, 3);
    let p8 = mesh::POINT_COLUMNS * p;
    let p2 = 2 * p;
    let t3 = 3 * t;
    let t2 = 2 * t;
    let e4 = 4 * e;
    let b2 = 2 * b;
    image::load(
        bytes, points, roots, corners, volumes, ends, lengths, outline,
    );
    questions::groups_in::<{ small::SIDES }>(
        v,
        list,
        &points[..p8],
        &roots[..p2],
        &corners[..t3],
        &volumes[..t2],
        &ends[..e4],
        &lengths[..e4],
        &outline[..b2],
        out,
    )
}

// The groups that few sides make in a tiny image, in tiny blocks.
fn tiny_groups(v: usize, list: &[usize], bytes: &[u8], out: &mut [u8]) -> u32
    requires { (image_sized_of bytes.now ≡ true) × (length list.now ≤ 128) × (tiny_image bytes.now ≡ true) }
    ensures { Replied (question_reply (Groups v) bytes.now list.now) (length out.old) result
        out.new }
{
    let mut points = [0.0f32; PARTICLES * mesh::POINT_COLUMNS];
    let mut roots = [0usize; 2 * PARTICLES];
    let mut corners = [0usize; 3 * TRIANGLES];
    let mut volumes = [0.0f32; 2 * TRIANGLES];
    let mut ends = [0usize; 4 * EDGES];
    let mut lengths = [0.0f32; 4 * EDGES];
    let mut outline = [0usize; 2 * BOUNDARY];
    groups_loaded(
        v,
        list,
        bytes,
        &mut points,
        &mut roots,
        &mut corners,
        &mut volumes,
        &mut ends,
        &mut lengths,
        &mut outline,
        out,
    )
}

// The groups that few sides make in an image: a tiny one has a way of its own.
pub fn groups_asked(v: usize, list: &[usize], bytes: &[u8], out: &mut [u8]) -> u32
    requires { length list.now ≤ 128 }
    ensures { Replied (question_reply (Groups v) bytes.now list.now) (length out.old) result
        out.new }
{
    if image::image_sized(bytes) {
        if is_tiny(bytes) {
            return tiny_groups(v, list, bytes, out);
        }
    }
    questions::image_asked(Question::Groups(v), list, bytes, out)
}

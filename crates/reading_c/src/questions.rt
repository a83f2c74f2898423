// A question to a mesh image. Pieces and measures are answered by `tabled`, from its bytes. For the others the image is loaded into local blocks, smaller ones for a small
// or a middling image, and the public entry that answers is called on their fronts. No other function that reads has such blocks, but for the tiny ones of `tiny`.
ghost use Rattle.std.specs.Prelude.{◌≡◌, true, false, ◌≤◌, length};
ghost use Rattle.mesh.specs.Given.{mesh_of, sizes_fit_of};
ghost use Rattle.mesh.specs.Refused.{number_of, refusal_in};
ghost use Rattle.judge.specs.Checks.{then_check};
ghost use Rattle.image.specs.Image.{image_sized_of};
ghost use Rattle.image.specs.Loads.{Loadable};
ghost use Rattle.reading_replies.specs.Replies.{Replied};
ghost use Rattle.reading_c.specs.Questions.{question_of, question_call, question_reply};
ghost use Rattle.reading_c.specs.declared.Question.TheVariants.{Groups, Unread};
ghost use Rattle.mesh.specs.Blocks.{given_before};

use crate::{Asked, Question, tabled};
use image::small;
use judge::checks;
use mesh::refusals::Refusal;
use reading_replies::reply;
use readings::grouping;

// The most sides whose groups stand in a small table.
const FEW_SIDES: usize = small::SIDES;

// The most sides that are asked about.
const MOST_SIDES: usize = 2049;

// The lengths of the blocks of a small image, which are cleared in a sixteenth of the time.
const SMALL_POINTS: usize = mesh::POINT_COLUMNS * small::PARTICLES;

const SMALL_ROOTS: usize = mesh::ROOT_COLUMNS * small::PARTICLES;

const SMALL_CORNERS: usize = mesh::CORNER_COLUMNS * small::TRIANGLES;

const SMALL_VOLUMES: usize = mesh::VOLUME_COLUMNS * small::TRIANGLES;

const SMALL_ENDS: usize = mesh::END_COLUMNS * small::EDGES;

const SMALL_OUTLINE: usize = mesh::SIDE_COLUMNS * small::BOUNDARY;

// The lengths of the blocks of a middling image, which are cleared in a quarter of the time.
const MIDDLING_POINTS: usize = mesh::POINT_COLUMNS * small::MIDDLING_PARTICLES;

const MIDDLING_ROOTS: usize = mesh::ROOT_COLUMNS * small::MIDDLING_PARTICLES;

const MIDDLING_CORNERS: usize = mesh::CORNER_COLUMNS * small::MIDDLING_TRIANGLES;

const MIDDLING_VOLUMES: usize = mesh::VOLUME_COLUMNS * small::MIDDLING_TRIANGLES;

const MIDDLING_ENDS: usize = mesh::END_COLUMNS * small::MIDDLING_EDGES;

const MIDDLING_OUTLINE: usize = mesh::SIDE_COLUMNS * small::MIDDLING_BOUNDARY;

// The lengths of the blocks of the most that a mesh may have.
const POINTS: usize = mesh::POINT_COLUMNS * mesh::PARTICLES;

const ROOTS: usize = mesh::ROOT_COLUMNS * mesh::PARTICLES;

const CORNERS: usize = mesh::CORNER_COLUMNS * mesh::TRIANGLES;

const VOLUMES: usize = mesh::VOLUME_COLUMNS * mesh::TRIANGLES;

const ENDS: usize = mesh::END_COLUMNS * mesh::EDGES;

const OUTLINE: usize = mesh::SIDE_COLUMNS * mesh::BOUNDARY;

// The groups that sides make at a particle, by a lent table that has a place for each side.
fn groups_within(
    v: usize,
    list: &[usize],
    points: &[f32],
    roots: &[usize],
    corners: &[usize],
    volumes: &[f32],
    ends: &[usize],
    lengths: &[f32],
    outline: &[usize],
    groups: &mut [usize],
    out: &mut [u8],
) -> u32
    requires { (length list.now ≤ length groups.old) × (length groups.old ≤ 2049) }
    ensures { let G = given_before points roots corners volumes ends lengths outline in
        Replied (question_call (Groups v) (sizes_fit_of G) (mesh_of G) list.now) (length out.old) result out.new }
{
    let n = list.len();
    let a = grouping::groups(
        points, roots, corners, volumes, ends, lengths, outline, v, list, groups,
    );
    reply::reply_groups(a, &groups[..n], out)
}

// The groups that sides make, in a table of its own for N of them.
pub fn groups_in<const N: usize>(
    v: usize,
    list: &[usize],
    points: &[f32],
    roots: &[usize],
    corners: &[usize],
    volumes: &[f32],
    ends: &[usize],
    lengths: &[f32],
    outline: &[usize],
    out: &mut [u8],
) -> u32
    requires { (length list.now ≤ N) × (N ≤ 2049) }
    ensures { let G = given_before points roots corners volumes ends lengths outline in
        Replied (question_call (Groups v) (sizes_fit_of G) (mesh_of G) list.now) (length out.old) result out.new }
{
    let mut groups = [0usize; N];
    groups_within(
        v,
        list,
        points,
        roots,
        corners,
        volumes,
        ends,
        lengths,
        outline,
        &mut groups,
        out,
    )
}

// The groups that sides make at a particle.
fn ask_groups(
    v: usize,
    list: &[usize],
    points: &[f32],
    roots: &[usize],
    corners: &[usize],
    volumes: &[f32],
    ends: &[usize],
    lengths: &[f32],
    outline: &[usize],
    out: &mut [u8],
) -> u32
    requires { length list.now ≤ 2049 }
    ensures { let G = given_before points roots corners volumes ends lengths outline in
        Replied (question_call (Groups v) (sizes_fit_of G) (mesh_of G) list.now) (length out.old) result out.new }
{
    if list.len() <= FEW_SIDES {
        return groups_in::<FEW_SIDES>(
            v, list, points, roots, corners, volumes, ends, lengths, outline, out,
        );
    }
    groups_in::<MOST_SIDES>(
        v, list, points, roots, corners, volumes, ends, lengths, outline, out,
    )
}

// What refuses a question that was not read: the fault of the mesh, else a bad argument.
fn unread(fault: Result<(), Refusal>) -> Refusal
    ensures { number_of result ≡ then_check (refusal_in fault) false 4 }
{
    match fault {
        Ok(()) => Refusal::Argument,
        Err(e) => e,
    }
}

// A question to the mesh that blocks are.
fn ask(
    q: Asked,
    list: &[usize],
    points: &[f32],
    roots: &[usize],
    corners: &[usize],
    volumes: &[f32],
    ends: &[usize],
    lengths: &[f32],
    outline: &[usize],
    out: &mut [u8],
) -> u32
    requires { length list.now ≤ 2049 }
    ensures { let G = given_before points roots corners volumes ends lengths outline in Replied (question_call (question_of q)
        (sizes_fit_of G) (mesh_of G) list.now) (length out.old) result out.new }
{
    match q {
        Asked::Opens(v, minimum) => {
            let a = grouping::opens_without_confetti(
                points, roots, corners, volumes, ends, lengths, outline, v, list, minimum,
            );
            return reply::reply_truth(a, out);
        }
        Asked::Groups(v) => {
            return ask_groups(
                v, list, points, roots, corners, volumes, ends, lengths, outline, out,
            );
        }
        Asked::Unread => {
            let fault = checks::judge(points, roots, corners, volumes, ends, lengths, outline);
            return replies::reply_refused(unread(fault).number(), out);
        }
    }
}

// A question to an image that has the sizes of a mesh, by seven lent blocks that have room for it.
fn ask_within(
    q: Asked,
    list: &[usize],
    bytes: &[u8],
    points: &mut [f32],
    roots: &mut [usize],
    corners: &mut [usize],
    volumes: &mut [f32],
    ends: &mut [usize],
    lengths: &mut [f32],
    outline: &mut [usize],
    out: &mut [u8],
) -> u32
    requires { (image_sized_of bytes.now ≡ true) × (length list.now ≤ 2049)
        × Loadable bytes.now (length points.old) (length roots.old) (length corners.old) (length volumes.old) (length ends.old)
        (length lengths.old) (length outline.old) }
    ensures { Replied (question_reply (question_of q) bytes.now list.now) (length out.old) result
        out.new }
{
    let p = image::word_at(bytes, 0);
    let t = image::word_at(bytes, 1);
    let e = image::word_at(bytes, 2);
    let b = image::word_at(bytes, 3);
    let p8 = mesh::POINT_COLUMNS * p;
    let p2 = 2 * p;
    let t3 = 3 * t;
    let t2 = 2 * t;
    let e4 = 4 * e;
    let b2 = 2 * b;
    image::load(
        bytes, points, roots, corners, volumes, ends, lengths, outline,
    );
    ask(
        q,
        list,
        &points[..p8],
        &roots[..p2],
        &corners[..t3],
        &volumes[..t2],
        &ends[..e4],
        &lengths[..e4],
        &outline[..b2],
        out,
    )
}

// A question to an image, in blocks of its own of these lengths: a small or a middling image has small ones, which are cleared sooner.
fn ask_in<
    const P: usize,
    const R: usize,
    const C: usize,
    const V: usize,
    const E: usize,
    const B: usize,
>(q: Asked, list: &[usize], bytes: &[u8], out: &mut [u8]) -> u32
    requires { (image_sized_of bytes.now ≡ true) × (length list.now ≤ 2049)
        × Loadable bytes.now P R C V E E B
        × (P ≤ 8192) × (R ≤ 2048) × (C ≤ 3072) × (V ≤ 2048) × (E ≤ 8192) × (B ≤ 4096) }
    ensures { Replied (question_reply (question_of q) bytes.now list.now) (length out.old) result
        out.new }
{
    let mut points = [0.0f32; P];
    let mut roots = [0usize; R];
    let mut corners = [0usize; C];
    let mut volumes = [0.0f32; V];
    let mut ends = [0usize; E];
    let mut lengths = [0.0f32; E];
    let mut outline = [0usize; B];
    ask_within(
        q,
        list,
        bytes,
        &mut points,
        &mut roots,
        &mut corners,
        &mut volumes,
        &mut ends,
        &mut lengths,
        &mut outline,
        out,
    )
}

// A question to an image that is not small.
fn ask_larger(q: Asked, list: &[usize], bytes: &[u8], out: &mut [u8]) -> u32
    requires { (image_sized_of bytes.now ≡ true) × (length list.now ≤ 2049) }
    ensures { Replied (question_reply (question_of q) bytes.now list.now) (length out.old) result
        out.new }
{
    if small::is_middling(bytes) {
        return ask_in::<
            MIDDLING_POINTS,
            MIDDLING_ROOTS,
            MIDDLING_CORNERS,
            MIDDLING_VOLUMES,
            MIDDLING_ENDS,
            MIDDLING_OUTLINE,
        >(q, list, bytes, out);
    }
    ask_in::<POINTS, ROOTS, CORNERS, VOLUMES, ENDS, OUTLINE>(q, list, bytes, out)
}

// A question to an image that has the sizes of a mesh.
fn ask_loaded(q: Asked, list: &[usize], bytes: &[u8], out: &mut [u8]) -> u32
    requires { (image_sized_of bytes.now ≡ true) × (length list.now ≤ 2049) }
    ensures { Replied (question_reply (question_of q) bytes.now list.now) (length out.old) result
        out.new }
{
    if small::is_small(bytes) {
        return ask_in::<
            SMALL_POINTS,
            SMALL_ROOTS,
            SMALL_CORNERS,
            SMALL_VOLUMES,
            SMALL_ENDS,
            SMALL_OUTLINE,
        >(q, list, bytes, out);
    }
    ask_larger(q, list, bytes, out)
}

// A question to an image that has the sizes of a mesh: its elements answer, or its blocks.
fn ask_sized(q: Question, list: &[usize], bytes: &[u8], out: &mut [u8]) -> u32
    requires { (image_sized_of bytes.now ≡ true) × (length list.now ≤ 2049) }
    ensures { Replied (question_reply q bytes.now list.now) (length out.old) result out.new }
{
    match q {
        Question::Pieces => {
            return reply::reply_count(tabled::pieces(bytes), out);
        }
        Question::Measure => {
            return reply::reply_number(tabled::measure(bytes), out);
        }
        Question::MeasureOf => {
            return reply::reply_number(tabled::measure_of(bytes, list), out);
        }
        Question::Opens(v, minimum) => {
            return ask_loaded(Asked::Opens(v, minimum), list, bytes, out);
        }
        Question::Groups(v) => {
            return ask_loaded(Asked::Groups(v), list, bytes, out);
        }
        Question::Unread => {
            return ask_loaded(Asked::Unread, list, bytes, out);
        }
    }
}

// A question to an image, beside a list that is no longer than a reply has places for. What is no image of a mesh is refused.
pub fn image_asked(q: Question, list: &[usize], bytes: &[u8], out: &mut [u8]) -> u32
    requires { length list.now ≤ 2049 }
    ensures { Replied (question_reply q bytes.now list.now) (length out.old) result out.new }
{
    if image::image_sized(bytes) {
        return ask_sized(q, list, bytes, out);
    }
    replies::reply_refused(1, out)
}

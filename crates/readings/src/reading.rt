// The entries that only read a mesh: pieces, measures.
ghost use Rattle.std.specs.Prelude.{◌≡◌, true, ◌/◌, length};
ghost use Rattle.mesh.specs.Refused.{answer_in};
ghost use Rattle.model.specs.Elements.{the_rest_measure_of};
ghost use Rattle.model.specs.Pieces.{pieces as pieces_of};
ghost use Rattle.model.specs.Calls.{particles_ok};
ghost use Rattle.model.specs.Reads.{root_call, blade_call, pieces_call, rest_measure_call, rest_measure_of_call};
ghost use Rattle.mesh.specs.Given.{mesh_of, sizes_fit_of};
ghost use Rattle.mesh_tables.specs.Accepted.{Accepted};
ghost use Rattle.mesh.specs.Blocks.{given_in, given_before};

use arguments::tests;
use blade::{Hit, Point};
use mesh::refusals::Refusal;

// The root of a number: 4 where it is below 0 or not finite.
pub fn root(x: f32) -> Result<f32, Refusal>
    ensures { answer_in result ≡ root_call x }
{
    let r = float::root::root(x);
    match r {
        Some(y) => Ok(y),
        None => Err(Refusal::Argument),
    }
}

// The blade from b0 to b1 on the edge from p to q: 2 where a number is out of range.
pub fn blade_hit(b0: Point, b1: Point, p: Point, q: Point) -> Result<Hit, Refusal>
    ensures { answer_in result ≡ blade_call (record { from = b0; to = b1 }) p q }
{
    let z = judge::tests::both(tests::point_fits(b0), tests::point_fits(b1));
    let z = judge::tests::both(z, tests::point_fits(p));
    let z = judge::tests::both(z, tests::point_fits(q));
    if z {
        return Ok(blade::blade_hit(b0, b1, p, q));
    }
    Err(Refusal::Number)
}

// How many pieces an accepted mesh has.
fn count_pieces(
    points: &[f32],
    roots: &[usize],
    corners: &[usize],
    volumes: &[f32],
    ends: &[usize],
    lengths: &[f32],
    outline: &[usize],
) -> usize
    requires { Accepted (given_in points roots corners volumes ends lengths outline) }
    ensures { result ≡ pieces_of (mesh_of (given_before points roots corners volumes ends lengths outline)) }
{
    let mut verts = [0usize; mesh::ELEMENT_CORNERS];
    let mut heads = [0u16; mesh::ELEMENT_CORNERS];
    let mut links = [0u16; mesh::ELEMENT_CORNERS];
    let mut lows = [0u16; mesh::ELEMENT_CORNERS];
    let mut parent = [0usize; mesh::ELEMENTS];
    let s = mesh_tables::corners::corners_of(
        points, roots, corners, volumes, ends, lengths, outline, &mut verts,
    );
    let n = s.n;
    let k = s.k;
    pieces::sides::count_sides(
        n,
        k,
        &verts,
        &mut heads,
        &mut links,
        &mut lows,
        &mut parent[..n],
    )
}

// How many pieces a mesh has.
pub fn pieces(
    points: &[f32],
    roots: &[usize],
    corners: &[usize],
    volumes: &[f32],
    ends: &[usize],
    lengths: &[f32],
    outline: &[usize],
) -> Result<usize, Refusal>
    ensures { let G = given_before points roots corners volumes ends lengths outline in
        answer_in result ≡ pieces_call (sizes_fit_of G) (mesh_of G) }
{
    judge::checks::judge(points, roots, corners, volumes, ends, lengths, outline)?;
    Ok(count_pieces(points, roots, corners, volumes, ends, lengths, outline))
}

// The measure of a mesh.
pub fn rest_measure(
    points: &[f32],
    roots: &[usize],
    corners: &[usize],
    volumes: &[f32],
    ends: &[usize],
    lengths: &[f32],
    outline: &[usize],
) -> Result<f32, Refusal>
    ensures { let G = given_before points roots corners volumes ends lengths outline in
        answer_in result ≡ rest_measure_call (sizes_fit_of G) (mesh_of G) }
{
    judge::checks::judge(points, roots, corners, volumes, ends, lengths, outline)?;
    Ok(mesh_tables::measures::whole_measure(
        points, roots, corners, volumes, ends, lengths, outline,
    ))
}

// The measure of what lies in a list of particles of an accepted mesh.
fn listed_measure(
    points: &[f32],
    roots: &[usize],
    corners: &[usize],
    volumes: &[f32],
    ends: &[usize],
    lengths: &[f32],
    outline: &[usize],
    list: &[usize],
) -> f32
    requires { Accepted (given_in points roots corners volumes ends lengths outline)
        × (particles_ok (mesh_of (given_in points roots corners volumes ends lengths outline)) list.now ≡ true) }
    ensures { result ≡ the_rest_measure_of (mesh_of (given_before points roots corners volumes ends lengths outline)) list.now }
{
    let mut numbers = [0usize; mesh::ELEMENTS];
    let mut verts = [0usize; mesh::ELEMENT_CORNERS];
    let mut measures = [0.0f32; mesh::ELEMENTS];
    let mut marks = [0usize; mesh::PARTICLES];
    let s = mesh_tables::tables::table(
        points,
        roots,
        corners,
        volumes,
        ends,
        lengths,
        outline,
        &mut numbers,
        &mut verts,
        &mut measures,
    );
    elements::measure_within(s.n, s.k, &verts, &measures, list, &mut marks)
}

// The measure of what lies in a list of particles: 4 where the list does not rise strictly, or names a particle that is absent.
pub fn rest_measure_of(
    points: &[f32],
    roots: &[usize],
    corners: &[usize],
    volumes: &[f32],
    ends: &[usize],
    lengths: &[f32],
    outline: &[usize],
    list: &[usize],
) -> Result<f32, Refusal>
    ensures { let G = given_before points roots corners volumes ends lengths outline in
        answer_in result ≡ rest_measure_of_call (sizes_fit_of G) (mesh_of G) list.now }
{
    judge::checks::judge(points, roots, corners, volumes, ends, lengths, outline)?;
    if !tests::rising_below(list, points.len() / mesh::POINT_COLUMNS) {
        return Err(Refusal::Argument);
    }
    Ok(listed_measure(
        points, roots, corners, volumes, ends, lengths, outline, list,
    ))
}

// The checks of a mesh image, from its bytes: no block is filled for them. An image's columns stand one behind the other, so that neighbours with one test are
// one run of words.
#![tactic(auto)]

mod places;
mod rows;
mod runs;

ghost use Rattle.std.specs.Prelude.{◌≡◌, true};
ghost use Rattle.model.specs.Valid.{numbers_fit_of, indices_fit_of};
ghost use Rattle.mesh.specs.Given.{mesh_of};
ghost use Rattle.mesh.specs.Refused.{refusal_in};
ghost use Rattle.judge.specs.Checks.{fault_in};
ghost use Rattle.image.specs.Image.{image_of, image_sized_of};

use judge::tests;
use mesh::refusals::Refusal;

// The numbers and flags of the mesh that an image is.
fn numbers_fit(bytes: &[u8]) -> bool
    requires { image_sized_of bytes.now ≡ true }
    ensures { result ≡ numbers_fit_of (mesh_of (image_of bytes.now)) }
{
    let p = image::word_at(bytes, 0);
    let t = image::word_at(bytes, 1);
    let e = image::word_at(bytes, 2);
    let triangles = 4 + mesh::PARTICLE_WORDS * p;
    let z = rows::particles_fit(bytes, p);
    let z = tests::both(z, rows::triangles_fit(bytes, triangles + 3 * t, t));
    tests::both(z, rows::edges_fit(bytes, triangles + 5 * t, e))
}

// Its indices and roots.
fn indices_fit(bytes: &[u8]) -> bool
    requires { image_sized_of bytes.now ≡ true }
    ensures { result ≡ indices_fit_of (mesh_of (image_of bytes.now)) }
{
    let p = image::word_at(bytes, 0);
    let t = image::word_at(bytes, 1);
    let e = image::word_at(bytes, 2);
    let b = image::word_at(bytes, 3);
    let triangles = 4 + mesh::PARTICLE_WORDS * p;
    let edges = triangles + 5 * t;
    let z = runs::below(bytes, 4 + mesh::POINT_COLUMNS * p, p, p);
    let z = tests::both(z, rows::corners_fit(bytes, triangles, p, t));
    let z = tests::both(z, rows::pairs_fit(bytes, edges, p, e));
    tests::both(z, rows::pairs_fit(bytes, edges + 8 * e, p, b))
}

// The refusals 2 and 3 of the mesh that an image is.
pub fn image_fault(bytes: &[u8]) -> Result<(), Refusal>
    requires { image_sized_of bytes.now ≡ true }
    ensures { refusal_in result ≡ fault_in (mesh_of (image_of bytes.now)) }
{
    tests::ensure(numbers_fit(bytes), Refusal::Number)?;
    tests::ensure(indices_fit(bytes), Refusal::Name)
}

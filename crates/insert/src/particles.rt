// The particles of an insertion: both ends are lightened, and one new particle is appended on each side.
ghost use Rattle.std.specs.Prelude.{◌≡◌, [], ◌∷◌, ◌++◌, ◌<◌, ◌≤◌, ◌/◌, ◌+◌, length};
ghost use Rattle.std.specs.Float.Ieee.{ne};
ghost use Rattle.lists.specs.Lists.{pick};
ghost use Rattle.float.specs.Numbers.{zero32, inv_of};
ghost use Rattle.model.specs.Cut.{half_a, half_b};
ghost use Rattle.mesh.specs.At.{particles_at};
ghost use Rattle.mesh.specs.Workers.{ParticleRoom};
ghost use Rattle.mesh.specs.Widths.{point_columns};
ghost use Rattle.insert.specs.Plans.{planned, InsertableRoom};
ghost use Rattle.insert.specs.Inserts.{velocity_in, Lightened, particle_of, BetweenIs, ParticlesRoom, ParticlesInserted};

use crate::plan::Plan;
use blade::Point;

// One particle.
#[derive(Clone, Copy)]
pub struct ParticleRow {
    pub at: Point,
    pub rest: Point,
    pub mass: f32,
    pub inverse: f32,
    pub velocity: Point,
    pub root: usize,
    pub damaged: usize,
}

// How fast particle w goes.
fn velocity_of(w: usize, points: &[f32]) -> Point
    requires { w < length points.now / point_columns }
    ensures { result ≡ velocity_in points.now w }
{
    let p = points.len() / mesh::POINT_COLUMNS;
    Point {
        x: points[6 * p + w],
        y: points[7 * p + w],
    }
}

// The inverse of mass m, or the one there is where that is 0.
fn kept_inverse(m: f32, inverse: f32) -> f32
    ensures { result ≡ pick (ne inverse zero32) (inv_of m) inverse }
{
    if inverse != 0.0 {
        return float::inverse::inv(m);
    }
    inverse
}

// Particle v gives up its share of the strap and keeps its half of a part.
fn lighten(v: usize, share: f32, keeps: f32, points: &mut [f32])
    requires { v < length points.old / point_columns }
    ensures { Lightened v share keeps points.old points.new }
{
    let p = points.len() / mesh::POINT_COLUMNS;
    let m = points[4 * p + v] - (share - keeps);
    let w = kept_inverse(m, points[5 * p + v]);
    points[4 * p + v] = m;
    points[5 * p + v] = w;
}

// Half the mass of the first end's part.
fn first_half(plan: Plan) -> f32
    ensures { result ≡ half_a (planned plan) }
{
    (plan.first + plan.second) * plan.at * 0.5
}

// Half the mass of the second end's part.
fn second_half(plan: Plan) -> f32
    ensures { result ≡ half_b (planned plan) }
{
    (plan.first + plan.second) * (1.0 - plan.at) * 0.5
}

// A new particle on the strap, where and as fast as its fraction says: of mass m, its own root n, damaged as is told.
fn between(plan: Plan, m: f32, n: usize, damaged: usize, points: &[f32]) -> ParticleRow
    requires { InsertableRoom plan (length points.now) }
    ensures { BetweenIs plan m n damaged points.now result }
{
    let row = plan.row;
    let a = row.a;
    let b = row.b;
    let at = blade::lerp(
        split_plan::place(a, points),
        split_plan::place(b, points),
        plan.at,
    );
    let rest = blade::lerp(
        split_plan::rest_point(a, points),
        split_plan::rest_point(b, points),
        plan.at,
    );
    let velocity = blade::lerp(velocity_of(a, points), velocity_of(b, points), plan.at);
    ParticleRow {
        at: at,
        rest: rest,
        mass: m,
        inverse: float::inverse::inv(m),
        velocity: velocity,
        root: n,
        damaged: damaged,
    }
}

// Appends a particle to the n that are there.
fn append_particle(n: usize, row: ParticleRow, points: &mut [f32], roots: &mut [usize])
    requires { ParticleRoom (n + 1) (length points.old) (length roots.old) }
    ensures { particles_at (n + 1) points.new roots.new
        ≡ particles_at n points.old roots.old ++ (particle_of row ∷ []) }
{
    let p = points.len() / mesh::POINT_COLUMNS;
    let r = roots.len() / mesh::ROOT_COLUMNS;
    let at = row.at;
    let rest = row.rest;
    let velocity = row.velocity;
    points[n] = at.x;
    points[p + n] = at.y;
    points[2 * p + n] = rest.x;
    points[3 * p + n] = rest.y;
    points[4 * p + n] = row.mass;
    points[5 * p + n] = row.inverse;
    points[6 * p + n] = velocity.x;
    points[7 * p + n] = velocity.y;
    roots[n] = row.root;
    roots[r + n] = row.damaged;
}
// Both ends are lightened, and the new particles p on a's side and q on b's are appended.
pub fn insert_particles(plan: Plan, points: &mut [f32], roots: &mut [usize])
    requires { ParticlesRoom plan (length points.old) (length roots.old) }
    ensures { ParticlesInserted plan points.old points.new roots.old roots.new }
{
    let row = plan.row;
    let a = row.a;
    let b = row.b;
    let n = plan.before;
    let r = roots.len() / mesh::ROOT_COLUMNS;
    let first = first_half(plan);
    let second = second_half(plan);
    let p = between(plan, first, n, roots[r + a], points);
    let q = between(plan, second, n + 1, roots[r + b], points);
    lighten(a, plan.first, first, points);
    lighten(b, plan.second, second, points);
    append_particle(n, p, points, roots);
    append_particle(n + 1, q, points, roots);
}

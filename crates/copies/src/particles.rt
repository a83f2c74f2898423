// The particles of a split: v keeps the mass of group 0, and each other group has a copy of v with its own mass.
ghost use Rattle.std.specs.Prelude.{◌/◌, ◌<◌, length};
ghost use Rattle.copies.specs.Particles.{ParticlesCopied, CopyRoom, Weighed};
ghost use Rattle.mesh.specs.Widths.{point_columns};

// Gives v mass m and inverse mass w.
fn weigh(v: usize, m: f32, w: f32, points: &mut [f32])
    requires { v < length points.old / point_columns }
    ensures { Weighed v m w points.old points.new }
{
    let size = points.len() / mesh::POINT_COLUMNS;
    points[4 * size + v] = m;
    points[5 * size + v] = w;
}

// Each group from 1 on gets a copy of v with its share of v's mass; then v has the share of group 0. A group's weight is summed when it is needed.
pub fn copy_particles(
    v: usize,
    n: usize,
    count: usize,
    parts: usize,
    total: f32,
    groups: &[usize],
    measures: &[f32],
    points: &mut [f32],
    roots: &mut [usize],
)
    requires { CopyRoom v n count parts (length groups.now) (length measures.now) (length points.old) (length roots.old) }
    ensures { ParticlesCopied v n count parts total groups.now measures.now points.old
        points.new roots.old roots.new }
{
    let size = points.len() / mesh::POINT_COLUMNS;
    let mass = points[4 * size + v];
    let copies = count - 1;
    for g in 0..copies {
        let own = split_plan::weight_of(g + 1, parts, groups, measures);
        let m = split_plan::mass_of(mass, own, total, count);
        let w = float::inverse::inv(m);
        let at = n + g;
        mesh::rows::append_copy(v, at, m, w, points, roots);
    }
    let own = split_plan::weight_of(0, parts, groups, measures);
    let m = split_plan::mass_of(mass, own, total, count);
    let w = float::inverse::inv(m);
    weigh(v, m, w, points);
}

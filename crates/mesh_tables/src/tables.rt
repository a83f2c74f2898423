// The tables of an accepted mesh: all its elements, and the fan of a particle.
ghost use Rattle.std.specs.Prelude.{length};
ghost use Rattle.mesh_tables.specs.Accepted.{Accepted, TableLent, MeshTabled, FanLent, FanFound};
ghost use Rattle.mesh.specs.Blocks.{given_in, given_before};

// How many elements there are, how many corners each has, and how many particles two neighbours share at least.
#[derive(Clone, Copy)]
pub struct Shape {
    pub n: usize,
    pub k: usize,
    pub others: usize,
}

// The same, and how many elements a fan has.
#[derive(Clone, Copy)]
pub struct FanShape {
    pub n: usize,
    pub k: usize,
    pub others: usize,
    pub fan: usize,
}

// The table of all elements of an accepted mesh.
pub fn table(
    points: &[f32],
    roots: &[usize],
    corners: &[usize],
    volumes: &[f32],
    ends: &[usize],
    lengths: &[f32],
    outline: &[usize],
    numbers: &mut [usize],
    verts: &mut [usize],
    measures: &mut [f32],
) -> Shape
    requires { Accepted (given_in points roots corners volumes ends lengths outline)
        × TableLent (length numbers.old) (length verts.old) (length measures.old) }
    ensures { MeshTabled (given_before points roots corners volumes ends lengths outline) result.n result.k result.others
        numbers.new verts.new measures.new }
{
    let t = corners.len() / mesh::CORNER_COLUMNS;
    let e = ends.len() / mesh::END_COLUMNS;
    let kind = elements::kind_of(t, e, ends);
    let n = elements::element_table(
        kind, t, e, corners, volumes, ends, lengths, numbers, verts, measures,
    );
    let k = elements::corners_per(kind);
    let others = elements::facet_others(kind);
    Shape { n, k, others }
}

// The corners of all elements of an accepted mesh, and those of the elements that hold v.
pub fn fan_of(
    points: &[f32],
    roots: &[usize],
    corners: &[usize],
    volumes: &[f32],
    ends: &[usize],
    lengths: &[f32],
    outline: &[usize],
    v: usize,
    verts: &mut [usize],
    fan_verts: &mut [usize],
) -> FanShape
    requires { Accepted (given_in points roots corners volumes ends lengths outline)
        × FanLent (length verts.old) (length fan_verts.old) }
    ensures { FanFound (given_before points roots corners volumes ends lengths outline) v result.n result.k result.others result.fan
        verts.new fan_verts.new }
{
    let mut numbers = [0usize; mesh::ELEMENTS];
    let mut measures = [0.0f32; mesh::ELEMENTS];
    let mut fan_numbers = [0usize; mesh::ELEMENTS];
    let mut fan_measures = [0.0f32; mesh::ELEMENTS];
    let s = table(
        points,
        roots,
        corners,
        volumes,
        ends,
        lengths,
        outline,
        &mut numbers,
        verts,
        &mut measures,
    );
    let n = s.n;
    let k = s.k;
    let fan = elements::fan_table(
        v,
        k,
        n,
        &numbers,
        verts,
        &measures,
        &mut fan_numbers,
        fan_verts,
        &mut fan_measures,
    );
    FanShape {
        n,
        k,
        others: s.others,
        fan,
    }
}

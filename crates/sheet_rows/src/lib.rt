// Rows of a sheet read into blocks: each list's fields, and the numbers that follow from them; its blade; and blocks that are left empty.
#![tactic(auto)]

ghost use Rattle.std.specs.Prelude.{◌≡◌, ◌&&◌, [], ◌∷◌, ◌++◌, ℕ, ◌+◌, ◌*◌, ◌/◌, ◌<◌, ◌≤◌, length, leb};
ghost use Rattle.lists.specs.Lists.{tab, padded};
ghost use Rattle.float.specs.Numbers.{zero32};
ghost use Rattle.mesh.specs.At.{particles_at, triangles_at, edges_at, boundary_at};
ghost use Rattle.mesh.specs.Filled.{Filled};
ghost use Rattle.mesh.specs.Widths.{point_columns, side_columns};
ghost use Rattle.blade.specs.Points.{minus_of, length_of};
ghost use Rattle.bits.specs.Bits.{bits_of, field_at};
ghost use Rattle.sheet.specs.Sheet.{coord};
ghost use Rattle.sheet.specs.Read.{the_float_of, the_inverse_of, area_of, particle_from, triangle_from, side_from};
ghost use Rattle.split_plan.specs.Opened.{place_in};
ghost use Rattle.sheet_rows.specs.Work.{particle_bits, triangle_bits, edge_bits, side_bits, ParticleIn, ParticlesIn, TriangleIn, TrianglesIn, EdgesIn, SidesIn, BladeIn};
ghost use Rattle.mesh.specs.Blocks.{lent_before};

use blade::Point;
use mesh::EdgeRow;
use split_plan::place;

// The whole number that an 11-bit two's complement field stands for.
fn coordinate(raw: usize) -> i64
    requires { raw < 2048 }
    ensures { result ≡ coord raw }
{
    if raw < 1024 {
        return raw as i64;
    }
    raw as i64 - 2048
}

// A coordinate's field as an f32.
fn float_of(raw: usize) -> f32
    requires { raw < 2048 }
    ensures { result ≡ the_float_of raw }
{
    coordinate(raw) as f32
}

// The inverse mass of a particle with this flag.
fn inverse_of(pinned: usize) -> f32
    ensures { result ≡ the_inverse_of pinned }
{
    if pinned == 1 { 0.0 } else { 1.0 }
}

// Puts a particle behind the n that are there.
fn put_particle(
    n: usize,
    x: usize,
    y: usize,
    pinned: usize,
    points: &mut [f32],
    roots: &mut [usize],
)
    requires { ParticleIn x y n (length points.old) (length roots.old) }
    ensures { particles_at (n + 1) points.new roots.new
        ≡ particles_at n points.old roots.old ++ (particle_from n x y pinned ∷ []) }
{
    let p = points.len() / mesh::POINT_COLUMNS;
    let r = roots.len() / mesh::ROOT_COLUMNS;
    let fx = float_of(x);
    let fy = float_of(y);
    points[n] = fx;
    points[p + n] = fy;
    points[2 * p + n] = fx;
    points[3 * p + n] = fy;
    points[4 * p + n] = 1.0;
    points[5 * p + n] = inverse_of(pinned);
    points[6 * p + n] = 0.0;
    points[7 * p + n] = 0.0;
    roots[n] = n;
    roots[r + n] = 0;
}

// Reads n particles from bit `at` on.
pub fn read_particles(s: &[u8], at: usize, n: usize, points: &mut [f32], roots: &mut [usize])
    requires { ParticlesIn s.now at n (length points.old) (length roots.old) }
    ensures { particles_at n points.new roots.new ≡ tab n (particle_bits (bits_of s.now) at) }
{
    let mut pos = at;
    for i in 0..n {
        let x = bits::field(s, pos, 11);
        let y = bits::field(s, pos + 11, 11);
        let pinned = bits::field(s, pos + 22, 1);
        put_particle(i, x, y, pinned, points, roots);
        pos += 23;
    }
}

// Half the absolute cross product.
fn area(a: Point, b: Point, c: Point) -> f32
    ensures { result ≡ area_of a b c }
{
    float::abs::abs((b.x - a.x) * (c.y - a.y) - (b.y - a.y) * (c.x - a.x)) * 0.5
}

// Puts a triangle behind the n that are there.
fn put_triangle(
    n: usize,
    a: usize,
    b: usize,
    c: usize,
    points: &[f32],
    corners: &mut [usize],
    volumes: &mut [f32],
)
    requires { TriangleIn a b c (length points.now) n (length corners.old) (length volumes.old) }
    ensures { triangles_at (n + 1) corners.new volumes.new
        ≡ triangles_at n corners.old volumes.old ++ (triangle_from (place_in points.now) a b c ∷ []) }
{
    let t = corners.len() / mesh::CORNER_COLUMNS;
    let v = volumes.len() / mesh::VOLUME_COLUMNS;
    corners[n] = a;
    corners[t + n] = b;
    corners[2 * t + n] = c;
    volumes[n] = area(place(a, points), place(b, points), place(c, points));
    volumes[v + n] = 0.0;
}

// Reads n triangles of p particles from bit `at` on.
pub fn read_triangles(
    s: &[u8],
    at: usize,
    n: usize,
    p: usize,
    points: &[f32],
    corners: &mut [usize],
    volumes: &mut [f32],
)
    requires { TrianglesIn s.now at n p (length points.now) (length corners.old) (length volumes.old) }
    ensures { triangles_at n corners.new volumes.new
        ≡ tab n (triangle_bits (place_in points.now) (bits_of s.now) at) }
{
    let mut pos = at;
    for i in 0..n {
        let a = bits::field(s, pos, 10);
        let b = bits::field(s, pos + 10, 10);
        let c = bits::field(s, pos + 20, 10);
        put_triangle(i, a, b, c, points, corners, volumes);
        pos += 30;
    }
}

// The rest length between two particles of the points.
fn span(points: &[f32], a: usize, b: usize) -> f32
    requires { (a < length points.now / point_columns) × (b < length points.now / point_columns) }
    ensures { result ≡ length_of (minus_of (place_in points.now b) (place_in points.now a)) }
{
    blade::length(place(b, points) - place(a, points))
}

// Reads n edges of p particles from bit `at` on.
pub fn read_edges(
    s: &[u8],
    at: usize,
    n: usize,
    p: usize,
    points: &[f32],
    ends: &mut [usize],
    lengths: &mut [f32],
)
    requires { EdgesIn s.now at n p (length points.now) (length ends.old) (length lengths.old) }
    ensures { edges_at n ends.new lengths.new
        ≡ tab n (edge_bits (place_in points.now) (bits_of s.now) at) }
{
    let mut pos = at;
    for i in 0..n {
        let a = bits::field(s, pos, 10);
        let b = bits::field(s, pos + 10, 10);
        let w = span(points, a, b);
        let row = EdgeRow {
            a: a,
            b: b,
            structural: bits::field(s, pos + 20, 1),
            torn: 0,
            rest: w,
            initial: w,
            impulse: 0.0,
            stress: 0.0,
        };
        mesh::rows::append_edge(i, row, ends, lengths);
        pos += 21;
    }
}

// Puts a boundary entry behind the n that are there.
fn put_side(n: usize, a: usize, b: usize, outline: &mut [usize])
    requires { n + 1 ≤ length outline.old / side_columns }
    ensures { boundary_at (n + 1) outline.new ≡ boundary_at n outline.old ++ (side_from a b ∷ []) }
{
    let o = outline.len() / mesh::SIDE_COLUMNS;
    outline[n] = a;
    outline[o + n] = b;
}

// Reads n boundary entries from bit `at` on.
pub fn read_sides(s: &[u8], at: usize, n: usize, outline: &mut [usize])
    requires { SidesIn s.now at n (length outline.old) }
    ensures { boundary_at n outline.new ≡ tab n (side_bits (bits_of s.now) at) }
{
    let mut pos = at;
    for i in 0..n {
        put_side(
            i,
            bits::field(s, pos, 10),
            bits::field(s, pos + 10, 10),
            outline,
        );
        pos += 20;
    }
}

// Reads the blade's four coordinates from bit `at` on; 0 behind them.
pub fn read_blade(s: &[u8], at: usize, blade: &mut [f32])
    requires { BladeIn s.now at (length blade.old) }
    ensures { blade.new ≡ padded (length blade.old) zero32 (the_float_of
        (field_at (bits_of s.now) at 11) ∷ the_float_of (field_at (bits_of s.now) (at + 11) 11) ∷ the_float_of (field_at
        (bits_of s.now) (at + 22) 11) ∷ the_float_of (field_at (bits_of s.now) (at + 33) 11) ∷ []) }
{
    blade[0] = float_of(bits::field(s, at, 11));
    blade[1] = float_of(bits::field(s, at + 11, 11));
    blade[2] = float_of(bits::field(s, at + 22, 11));
    blade[3] = float_of(bits::field(s, at + 33, 11));
    columns::clear(4, blade);
}

// Fills every place with 0.
pub fn refuse(
    points: &mut [f32],
    roots: &mut [usize],
    corners: &mut [usize],
    volumes: &mut [f32],
    ends: &mut [usize],
    lengths: &mut [f32],
    outline: &mut [usize],
    log: &mut [usize],
    blade: &mut [f32],
)
    ensures { (Filled (record { mesh = record { particles = []; triangles = []; edges = []; boundary = [] }; log = [] })
        (lent_before points roots corners volumes ends lengths outline log) points.new roots.new corners.new
        volumes.new ends.new lengths.new outline.new log.new) × (blade.new
        ≡ padded (length blade.old) zero32 []) }
{
    let k = mesh::Counts {
        particles: 0,
        triangles: 0,
        edges: 0,
        boundary: 0,
        log: 0,
    };
    columns::clear(0, blade);
    mesh::whole::finish_all(
        k, points, roots, corners, volumes, ends, lengths, outline, log,
    );
}

// Whether both columns have n places.
pub fn two_fit(n: usize, a: usize, b: usize) -> bool
    ensures { result ≡ (leb n a && leb n b) }
{
    if n <= a { n <= b } else { false }
}

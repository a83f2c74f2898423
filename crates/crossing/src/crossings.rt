// The crossings of a blade with the straps of a mesh, in edge order.
ghost use Rattle.std.specs.Prelude.{◌≡◌, ◌<◌, ◌≤◌, ◌/◌, length};
ghost use Rattle.crossing.specs.Crossings.{HitRoom, HitTold, HitNoted, CrossingsRoom, CrossingsAre};

use blade::{Hit, Point};

// Where the blade meets edge i, if that is a strap.
fn hit_of(b0: Point, b1: Point, i: usize, points: &[f32], ends: &[usize]) -> Hit
    requires { HitRoom i (length points.now) ends.now }
    ensures { HitTold b0 b1 i points.now ends.now result }
{
    let c = ends.len() / mesh::END_COLUMNS;
    if ends[2 * c + i] != 1 {
        return Hit::Miss;
    }
    let a = split_plan::place(ends[i], points);
    let b = split_plan::place(ends[c + i], points);
    blade::blade_hit(b0, b1, a, b)
}

// Puts a hit on edge i behind the m crossings; returns how many there are.
fn note_hit(hit: Hit, i: usize, m: usize, numbers: &mut [u16], ts: &mut [f32]) -> usize
    requires { (m < length numbers.old) × (m < length ts.old) × (i < 65536) }
    ensures { HitNoted hit i m numbers.old numbers.new ts.old ts.new result }
{
    let Hit::Hit(t, _) = hit else {
        return m;
    };
    numbers[m] = i as u16;
    ts[m] = t;
    m + 1
}

// Fills the tables with the crossings of the first e edges; returns how many there are.
pub fn find_crossings(
    b0: Point,
    b1: Point,
    e: usize,
    points: &[f32],
    ends: &[usize],
    numbers: &mut [u16],
    ts: &mut [f32],
) -> usize
    requires { CrossingsRoom e (length points.now) ends.now (length numbers.old) (length ts.old) }
    ensures { CrossingsAre b0 b1 e points.now ends.now numbers.new ts.new result }
{
    let mut m: usize = 0;
    for i in 0..e {
        let hit = hit_of(b0, b1, i, points, ends);
        m = note_hit(hit, i, m, numbers, ts);
    }
    m
}

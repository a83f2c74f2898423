// The fan of a particle, read by walking the table of links: its triangles, or its straps.
#![tactic(auto)]

ghost use Rattle.std.specs.Prelude.{◌/◌, ◌<◌, ◌≤◌, length};
ghost use Rattle.model.specs.Elements.{triangles_from, straps_from};
ghost use Rattle.mesh.specs.At.{triangles_at, edges_at};
ghost use Rattle.mesh.specs.Widths.{length_columns};
ghost use Rattle.mesh.specs.Limits.{particle_limit};
ghost use Rattle.elements.specs.Table.{holding};
ghost use Rattle.link_fans.specs.Fans.{FanPut, FanLinked};
ghost use Rattle.links.specs.Linked.{EdgesLinked};

use mesh::whole::least;

// The triangles that hold v, by walking: their rows as far as the tables go, and how many they are.
pub fn fan_linked(
    v: usize,
    t: usize,
    heads: usize,
    span: usize,
    corners: &[usize],
    volumes: &[f32],
    table: &[u16],
    numbers: &mut [usize],
    verts: &mut [usize],
    measures: &mut [f32],
) -> usize
    requires { FanLinked v heads span t corners.now (length volumes.now) table.now }
    ensures { FanPut 3 (holding v (triangles_from 0 (triangles_at t corners.now volumes.now))) result
        numbers.new verts.new measures.new }
{
    let c = corners.len() / mesh::CORNER_COLUMNS;
    let rows = least(least(numbers.len(), measures.len()), verts.len() / 3);
    let mut r: usize = 0;
    let mut at = links::first_at(v, table);
    // A chain: each place tells the next, so there is no range to go over.
    while at > 0 {
        let i = at - 1;
        if r < rows {
            numbers[r] = i;
            verts[3 * r] = corners[i];
            verts[3 * r + 1] = corners[c + i];
            verts[3 * r + 2] = corners[2 * c + i];
            measures[r] = float::abs::abs(volumes[i]);
        }
        r += 1;
        at = links::next_at(v, i, 3, heads, span, c, corners, table);
    }
    r
}

// The straps that hold v, by walking the table of the edges: their rows as far as the tables go, and how many they are.
pub fn straps_linked(
    v: usize,
    e: usize,
    ends: &[usize],
    lengths: &[f32],
    table: &[u16],
    numbers: &mut [usize],
    verts: &mut [usize],
    measures: &mut [f32],
) -> usize
    requires { EdgesLinked e ends.now table.now × (e ≤ length lengths.now / length_columns) × (v < particle_limit) }
    ensures { FanPut 2 (holding v (straps_from 0 (edges_at e ends.now lengths.now))) result numbers.new
        verts.new measures.new }
{
    let c = ends.len() / mesh::END_COLUMNS;
    let m = lengths.len() / mesh::LENGTH_COLUMNS;
    let rows = least(least(numbers.len(), measures.len()), verts.len() / 2);
    let mut r: usize = 0;
    let mut at = links::first_at(v, table);
    // A chain: each place tells the next, so there is no range to go over.
    while at > 0 {
        let i = at - 1;
        if ends[2 * c + i] == 1 {
            if r < rows {
                numbers[r] = i;
                verts[2 * r] = ends[i];
                verts[2 * r + 1] = ends[c + i];
                measures[r] = lengths[m + i];
            }
            r += 1;
        }
        at = links::next_at(v, i, 2, mesh::PARTICLES, mesh::EDGES, c, ends, table);
    }
    r
}

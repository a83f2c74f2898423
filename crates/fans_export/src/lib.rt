// The table of fans beside the scan that it stands for, as C functions for `oracle/run fans`: each hands lent places on and promises what the function that it calls does, over a mesh of
// triangles. The scan is what it was before the table, and stays here to be compared.
#![tactic(auto)]

ghost use Rattle.std.specs.Prelude.{◌≡◌, ◌+◌, ◌*◌, ◌/◌, ◌<◌, ◌≤◌, length, take};
ghost use Rattle.elements.specs.Table.{kind_is};
ghost use Rattle.model.specs.Elements.{Triangles};
ghost use Rattle.mesh.specs.At.{edges_at};
ghost use Rattle.mesh.specs.Limits.{particle_limit};
ghost use Rattle.mesh.specs.Blocks.{mesh_in};
ghost use Rattle.links.specs.Rooms.{Cleared};
ghost use Rattle.links.specs.Linked.{MeshLinked, MeshLinkable, FrontLinked, LinkedIn, EdgesLinked};
ghost use Rattle.work.specs.Blocks.{ReadyIn};
ghost use Rattle.edge_drops.specs.Parted.{Listing, listed, edges_parted, PartsIn};
ghost use Rattle.split.specs.Tables.{FanLent, FanTables};
ghost use Rattle.split.specs.Blocks.{SidedIn, ListIn, LinkedParted};
ghost use Rattle.model.specs.Split.{split_by_sides_of};
ghost use Rattle.work.specs.Ran.{Ran};
ghost use Rattle.fans_export.specs.Parts.{five, largest, Tells};

use elements::Kind;
use mesh::{Counts, Rooms};

// The tables of the first t triangles, e edges and b boundary entries, built anew.
#[unsafe(no_mangle)]
pub extern "C" fn fans_build(
    t: usize,
    e: usize,
    b: usize,
    corners: &[usize],
    ends: &[usize],
    outline: &[usize],
    links: &mut [u16],
)
    requires { MeshLinkable (kind_is Kind.Triangles) t e b corners.now ends.now outline.now (length links.old) × Cleared links.old }
    ensures { MeshLinked (kind_is Kind.Triangles) t e b corners.now ends.now outline.now links.new }
{
    links::link_mesh(Kind::Triangles, t, e, b, corners, ends, outline, links);
}

// The fan of v by the table.
#[unsafe(no_mangle)]
pub extern "C" fn fans_walk(
    v: usize,
    t: usize,
    e: usize,
    corners: &[usize],
    volumes: &[f32],
    ends: &[usize],
    lengths: &[f32],
    links: &[u16],
    numbers: &mut [usize],
    verts: &mut [usize],
    measures: &mut [f32],
) -> usize
    requires { FanLent t e (length corners.now) (length volumes.now) (length ends.now) (length lengths.now)
        × FrontLinked (kind_is Kind.Triangles) t e corners.now ends.now links.now × (v < particle_limit) }
    ensures { FanTables (kind_is Kind.Triangles) v t e corners.now volumes.now ends.now lengths.now result numbers.new verts.new
        measures.new }
{
    split::fans::fan_tables(
        Kind::Triangles,
        v,
        t,
        e,
        corners,
        volumes,
        ends,
        lengths,
        numbers,
        verts,
        measures,
        links,
    )
}

fn one_of_three(v: usize, x: usize, y: usize, z: usize) -> bool {
    if x == v {
        return true;
    }
    if y == v {
        return true;
    }
    z == v
}

// The fan of v by the scan.
#[unsafe(no_mangle)]
pub extern "C" fn fans_scan(
    v: usize,
    t: usize,
    corners: &[usize],
    volumes: &[f32],
    numbers: &mut [usize],
    verts: &mut [usize],
    measures: &mut [f32],
) -> usize
    requires read { (t ≤ length corners.now / 3) × (t ≤ length volumes.now) }
    requires written { (t ≤ length numbers.old) × (3 * t ≤ length verts.old) × (t ≤ length measures.old) }
    ensures { result ≤ t }
{
    let c = corners.len() / 3;
    let mut r: usize = 0;
    let mut o: usize = 0;
    for i in 0..t {
        let x = corners[i];
        let y = corners[c + i];
        let z = corners[2 * c + i];
        if one_of_three(v, x, y, z) {
            numbers[r] = i;
            verts[o] = x;
            verts[o + 1] = y;
            verts[o + 2] = z;
            measures[r] = float::abs::abs(volumes[i]);
            o += 3;
            r += 1;
        }
    }
    r
}

// The rooms of the largest blocks.
const ROOMS: Rooms = Rooms {
    particles: 1024,
    triangles: 1024,
    edges: 2048,
    boundary: 2048,
    log: 4096,
};

// Splits v by the sides of its fan, which stands in the tables, with the table of links beside the blocks; the straddlers stay and are listed. Returns the number of the room that lacks, or
// 0, and then the new counts of particles, triangles, edges, boundary entries and log entries are written.
#[unsafe(no_mangle)]
pub extern "C" fn fans_part(
    v: usize,
    n: usize,
    numbers: &[usize],
    verts: &[usize],
    measures: &[f32],
    sides: &[usize],
    groups: &mut [usize],
    particles: usize,
    triangles: usize,
    edges: usize,
    boundary: usize,
    entries: usize,
    points: &mut [f32],
    roots: &mut [usize],
    corners: &mut [usize],
    volumes: &[f32],
    ends: &mut [usize],
    lengths: &mut [f32],
    outline: &mut [usize],
    log: &mut [u32],
    list: &mut [usize],
    links: &mut [u16],
    counts: &mut [usize],
) -> usize
    requires lent { let k = five particles triangles edges boundary entries in
        ReadyIn largest k points roots corners volumes ends lengths outline log
        × SidedIn Triangles (mesh_in k points roots corners volumes ends lengths outline) v n numbers verts measures sides
        × (n ≤ length groups.old) × ListIn list × LinkedIn Triangles k corners ends outline links }
    requires told { 5 ≤ length counts.old }
    ensures { (ran : Ran) × Tells ran result counts.new × LinkedParted Triangles corners ends outline links list ran
        × PartsIn (split_by_sides_of Triangles v (take n sides.now)) largest (five particles triangles edges boundary entries)
        points roots corners volumes ends lengths outline log list ran }
{
    let k = Counts {
        particles,
        triangles,
        edges,
        boundary,
        log: entries,
    };
    let ran = split::step::split_tabled(
        Kind::Triangles,
        v,
        n,
        numbers,
        verts,
        measures,
        sides,
        groups,
        k,
        ROOMS,
        points,
        roots,
        corners,
        volumes,
        ends,
        lengths,
        outline,
        log,
        list,
        links,
    );
    match ran {
        Err(lacking) => lacking.number(),
        Ok(q) => {
            counts[0] = q.particles;
            counts[1] = q.triangles;
            counts[2] = q.edges;
            counts[3] = q.boundary;
            counts[4] = q.log;
            0
        }
    }
}

// The listed straddlers go, from the blocks and from the table of the edges, and `left` edges are there then.
#[unsafe(no_mangle)]
pub extern "C" fn fans_close(
    left: usize,
    list: &[usize],
    ends: &mut [usize],
    lengths: &mut [f32],
    table: &mut [u16],
)
    requires { Listing left (length ends.old) (length lengths.old) list.now × EdgesLinked (left + listed list.now) ends.old
        table.old }
    ensures { (edges_at left ends.new lengths.new ≡ edges_parted left ends.old lengths.old
        list.now) × EdgesLinked left ends.new table.new }
{
    edge_drops::close(left, list, ends, lengths, table);
}

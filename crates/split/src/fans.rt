// The fan of a particle in tables, and its groups by sides.
ghost use Rattle.std.specs.Prelude.{◌<◌, length};
ghost use Rattle.elements.specs.Table.{kind_is};
ghost use Rattle.model.specs.Elements.{corners_per_of};
ghost use Rattle.links.specs.Linked.{FrontLinked};
ghost use Rattle.split.specs.Tables.{FanLent, FanTables, SidesLent, GroupsFound};
ghost use Rattle.mesh.specs.Limits.{particle_limit};

use elements::Kind;

// The elements of a fan that the small tables of a split hold, and their corners.
pub const FEW: usize = 16;

pub const FEW_CORNERS: usize = 48;

// The elements of any fan, and their corners.
pub const MANY: usize = mesh::ELEMENTS;

pub const MANY_CORNERS: usize = mesh::ELEMENT_CORNERS;

// The numbers, corners and measures of the elements that hold v, as far as the tables go, and how many they are: by walking from link to link.
pub fn fan_tables(
    kind: Kind,
    v: usize,
    t: usize,
    e: usize,
    corners: &[usize],
    volumes: &[f32],
    ends: &[usize],
    lengths: &[f32],
    numbers: &mut [usize],
    verts: &mut [usize],
    measures: &mut [f32],
    links: &[u16],
) -> usize
    requires { FanLent t e (length corners.now) (length volumes.now) (length ends.now) (length lengths.now)
        × FrontLinked (kind_is kind) t e corners.now ends.now links.now × (v < particle_limit) }
    ensures { FanTables (kind_is kind) v t e corners.now volumes.now ends.now
        lengths.now result numbers.new verts.new measures.new }
{
    match kind {
        Kind::Triangles => link_fans::fan_linked(
            v,
            t,
            mesh::PARTICLES,
            mesh::TRIANGLES,
            corners,
            volumes,
            links,
            numbers,
            verts,
            measures,
        ),
        Kind::Straps => link_fans::straps_linked(
            v,
            e,
            ends,
            lengths,
            &links[links::EDGES_FROM..],
            numbers,
            verts,
            measures,
        ),
        Kind::Nothing => 0,
    }
}

// The groups of a fan of n elements by their sides, and how many there are.
pub fn group_fan(
    kind: Kind,
    v: usize,
    n: usize,
    verts: &[usize],
    sides: &[usize],
    groups: &mut [usize],
) -> usize
    requires { SidesLent n (corners_per_of (kind_is kind)) (length verts.now) (length sides.now) (length groups.old) sides.now }
    ensures { GroupsFound (kind_is kind) v n verts.now sides.now groups.new result }
{
    let k = elements::corners_per(kind);
    let others = elements::facet_others(kind);
    let end = n * k;
    fan_groups::groups_of(&verts[..end], k, v, others, &sides[..n], &mut groups[..n])
}

// A sheet of either edition read into lent blocks: the mesh that it is, and its blade.
ghost use Rattle.std.specs.Prelude.{◌≡◌, [], ℕ, ◌/◌, ◌≤◌, length};
ghost use Rattle.lists.specs.Lists.{padded};
ghost use Rattle.float.specs.Numbers.{zero32};
ghost use Rattle.mesh.specs.Filled.{lent, Filled};
ghost use Rattle.bits.specs.Bits.{bits_of};
ghost use Rattle.sheet.specs.Read.{mesh_of_sheet, blade_of_sheet, counts_for};
ghost use Rattle.edition.specs.Edition.{sheet_of};
ghost use Rattle.edition.specs.Reading.{room_for, ReadDone};
ghost use Rattle.edition.specs.Work.{MeshIn, BladeAt, Held};
ghost use Rattle.mesh.specs.Blocks.{mesh_behind, lent_before, blocks_in};

use crate::Seen;
use mesh::refusals::Refusal;
use sheet::Counts;

// Whether the lent blocks have room for a sheet with counts c, by their lengths.
fn room(
    c: Counts,
    replaced: bool,
    lp: usize,
    lr: usize,
    lc: usize,
    lv: usize,
    le: usize,
    ll: usize,
    lo: usize,
    lb: usize,
) -> Result<Seen, Refusal>
    ensures { result ≡ room_for c replaced
        (record { points = lp; roots = lr; corners = lc; volumes = lv; ends = le; lengths = ll; outline = lo; log = 0 }) lb }
{
    if sheet_rows::two_fit(c.triangles, lc / 3, lv / 2) {
        if 4 <= lb {
            if sheet_rows::two_fit(c.particles, lp / mesh::POINT_COLUMNS, lr / 2) {
                if sheet_rows::two_fit(c.edges, le / 4, ll / 4) {
                    if c.boundary <= lo / 2 {
                        return Ok(Seen {
                            counts: c,
                            replaced,
                        });
                    }
                    return Err(Refusal::Boundary);
                }
                return Err(Refusal::Edges);
            }
            return Err(Refusal::Particles);
        }
        return Err(Refusal::Argument);
    }
    Err(Refusal::Argument)
}

// Reads the lists of a whole sheet to the fronts of the blocks, and copies its outline from where it was found.
fn read_mesh(
    s: &[u8],
    c: Counts,
    found: &[usize],
    points: &mut [f32],
    roots: &mut [usize],
    corners: &mut [usize],
    volumes: &mut [f32],
    ends: &mut [usize],
    lengths: &mut [f32],
    outline: &mut [usize],
)
    requires { MeshIn s.now c found.now (blocks_in points roots corners volumes ends lengths outline) }
    ensures { mesh_behind (counts_for c) points roots corners volumes ends lengths outline
        ≡ mesh_of_sheet (sheet_of (bits_of s.now)).sheet }
{
    let p = c.particles;
    let at = crate::typed::start_bit(s);
    let at_t = at + p * 23;
    let at_e = at_t + c.triangles * 30;
    sheet_rows::read_particles(s, at, p, points, roots);
    sheet_rows::read_triangles(s, at_t, c.triangles, p, points, corners, volumes);
    sheet_rows::read_edges(s, at_e, c.edges, p, points, ends, lengths);
    outline_tables::copy_sides(found, c.boundary, outline);
}

// Where a sheet's blade begins.
fn blade_bit(s: &[u8]) -> usize
    requires { 6 ≤ length s.now }
    ensures { BladeAt (bits_of s.now) result }
{
    let c = crate::typed::counts_in(s);
    let at = crate::typed::start_bit(s);
    at + c.particles * 23 + c.triangles * 30 + c.edges * 21 + c.boundary * 20
}

// Reads a sheet that is accepted, with counts c and the outline that was found, and puts 0 behind what it has.
fn accept(
    s: &[u8],
    c: Counts,
    found: &[usize],
    points: &mut [f32],
    roots: &mut [usize],
    corners: &mut [usize],
    volumes: &mut [f32],
    ends: &mut [usize],
    lengths: &mut [f32],
    outline: &mut [usize],
    log: &mut [usize],
    blade: &mut [f32],
)
    requires { Held s.now c found.now (blocks_in points roots corners volumes ends lengths outline) (length blade.old) }
    ensures { let S = (sheet_of (bits_of s.now)).sheet in
        (Filled (record { mesh = mesh_of_sheet S; log = [] }) (lent_before points roots corners volumes ends lengths outline log)
        points.new roots.new corners.new volumes.new ends.new lengths.new
        outline.new log.new) × (blade.new ≡ padded (length blade.old) zero32 (blade_of_sheet S)) }
{
    let k = mesh::Counts {
        particles: c.particles,
        triangles: c.triangles,
        edges: c.edges,
        boundary: c.boundary,
        log: 0,
    };
    sheet_rows::read_blade(s, blade_bit(s), blade);
    read_mesh(
        s, c, found, points, roots, corners, volumes, ends, lengths, outline,
    );
    mesh::whole::finish_all(
        k, points, roots, corners, volumes, ends, lengths, outline, log,
    );
}

// Reads a sheet into lent blocks: whole, with its counts and whether its typed outline was replaced, or why it is refused and 0 in every place.
pub fn read(
    s: &[u8],
    limits: Counts,
    points: &mut [f32],
    roots: &mut [usize],
    corners: &mut [usize],
    volumes: &mut [f32],
    ends: &mut [usize],
    lengths: &mut [f32],
    outline: &mut [usize],
    log: &mut [usize],
    blade: &mut [f32],
) -> Result<Seen, Refusal>
    ensures { ReadDone limits s.now (lent_before points roots corners volumes ends lengths outline log) result
        points.new roots.new corners.new volumes.new ends.new lengths.new
        outline.new log.new blade.old blade.new }
{
    let mut found = [0usize; 6144];
    let seen = crate::outlines::look_into(s, limits, &mut found);
    match seen {
        Ok(k) => {
            let lent = room(
                k.counts,
                k.replaced,
                points.len(),
                roots.len(),
                corners.len(),
                volumes.len(),
                ends.len(),
                lengths.len(),
                outline.len(),
                blade.len(),
            );
            match lent {
                Ok(d) => {
                    accept(
                        s, d.counts, &found, points, roots, corners, volumes, ends, lengths,
                        outline, log, blade,
                    );
                    Ok(d)
                }
                Err(n) => {
                    sheet_rows::refuse(
                        points, roots, corners, volumes, ends, lengths, outline, log, blade,
                    );
                    Err(n)
                }
            }
        }
        Err(n) => {
            sheet_rows::refuse(
                points, roots, corners, volumes, ends, lengths, outline, log, blade,
            );
            Err(n)
        }
    }
}

// A sheet read to the fronts of the blocks that a program lends, within the limits of sheets.
#![tactic(auto)]

ghost use Rattle.std.specs.Prelude.{length};
ghost use Rattle.sheet_fronts.specs.Fronts.{Roomy, FrontsRead};
ghost use Rattle.mesh.specs.Blocks.{blocks_in};

use sheet::Counts as SheetCounts;

// The most that a sheet may have.
pub const LIMITS: SheetCounts = SheetCounts {
    particles: 128,
    triangles: 128,
    edges: 256,
    boundary: 256,
};

// Reads a whole sheet with counts c to the fronts of blocks, exactly as long as its lists need, and its blade.
pub fn read_fronts(
    sheet: &[u8],
    c: SheetCounts,
    points: &mut [f32],
    roots: &mut [usize],
    corners: &mut [usize],
    volumes: &mut [f32],
    ends: &mut [usize],
    lengths: &mut [f32],
    outline: &mut [usize],
    blade: &mut [f32],
)
    requires { Roomy sheet.now c (blocks_in points roots corners volumes ends lengths outline) (length blade.old) }
    ensures { FrontsRead sheet.now c points.new roots.new corners.new volumes.new
        ends.new lengths.new outline.new blade.new }
{
    let p = mesh::POINT_COLUMNS * c.particles;
    let r = 2 * c.particles;
    let t = 3 * c.triangles;
    let v = 2 * c.triangles;
    let e = 4 * c.edges;
    let o = 2 * c.boundary;
    let mut log = [0usize; 6];
    // The sheet is whole, and the blocks have room: nothing is refused.
    let _ = edition::read::read(
        sheet,
        LIMITS,
        &mut points[..p],
        &mut roots[..r],
        &mut corners[..t],
        &mut volumes[..v],
        &mut ends[..e],
        &mut lengths[..e],
        &mut outline[..o],
        &mut log,
        blade,
    );
}

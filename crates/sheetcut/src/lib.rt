// The program of docs/RULES.md, R14, from bytes to bytes: a sheet is read, cut and listed.
#![tactic(auto)]

ghost use Rattle.std.specs.Prelude.{◌≡◌, length};
ghost use Rattle.model.specs.Calls.{cut_call};
ghost use Rattle.mesh.specs.Given.{mesh_of, sizes_fit_of};
ghost use Rattle.bits.specs.Bits.{bits_of};
ghost use Rattle.edition.specs.Edition.{sheet_of, seen_of, whole_with};
ghost use Rattle.listing.specs.Listing.{printed};
ghost use Rattle.sheet.specs.Sheet.{limits as most};
ghost use Rattle.listing.specs.Answers.{Told};
ghost use Rattle.sheetcut.specs.SheetCut.{fraction as tenth, rooms, cut_of, listed};
ghost use Rattle.sheetcut.specs.Work.{Cuttable, fronts_before, line_before};
ghost use Rattle.mesh.specs.Blocks.{given_before, inputs_in};

use blade::Point;
use call_frame::Answer;
use mesh::Counts;
use sheet::Counts as SheetCounts;

// The insertion fraction.
fn fraction() -> f32
    ensures { result ≡ tenth }
{
    0.1
}

// Cuts a mesh along a blade, with the fraction and the places that the program lends, and writes the listing.
fn list_blocks(
    replaced: bool,
    b0: Point,
    b1: Point,
    points: &[f32],
    roots: &[usize],
    corners: &[usize],
    volumes: &[f32],
    ends: &[usize],
    lengths: &[f32],
    outline: &[usize],
    out: &mut [u8],
) -> Option<usize>
    ensures { let G = given_before points roots corners volumes ends lengths outline in
        Told (printed replaced (cut_call (sizes_fit_of G) (mesh_of G) 1 (record { from = b0; to = b1 }) tenth rooms)) (length out.old)
        out.new result }
{
    let mut cut_points = [0.0f32; 256 * mesh::POINT_COLUMNS];
    let mut cut_roots = [0usize; 512];
    let mut cut_corners = [0usize; 384];
    let mut cut_volumes = [0.0f32; 256];
    let mut cut_ends = [0usize; 2048];
    let mut cut_lengths = [0.0f32; 2048];
    let mut cut_outline = [0usize; 1024];
    let mut log = [0u32; 3840];
    let a = bench::tearing::cut(
        1,
        b0,
        b1,
        fraction(),
        points,
        roots,
        corners,
        volumes,
        ends,
        lengths,
        outline,
        &mut cut_points,
        &mut cut_roots,
        &mut cut_corners,
        &mut cut_volumes,
        &mut cut_ends,
        &mut cut_lengths,
        &mut cut_outline,
        &mut log,
    );
    answer_listing::list_answer(
        replaced,
        a,
        &cut_corners,
        &cut_volumes,
        &cut_ends,
        &cut_lengths,
        &log,
        out,
    )
}

// Cuts the mesh with counts c at the fronts of blocks along a blade, and writes the listing.
fn list_fronts(
    replaced: bool,
    c: SheetCounts,
    points: &[f32],
    roots: &[usize],
    corners: &[usize],
    volumes: &[f32],
    ends: &[usize],
    lengths: &[f32],
    outline: &[usize],
    blade: &[f32],
    out: &mut [u8],
) -> Option<usize>
    requires { Cuttable c (inputs_in points roots corners volumes ends lengths outline) (length blade.now) }
    ensures { let F = fronts_before c points roots corners volumes ends lengths outline in
        Told (printed replaced (cut_call (sizes_fit_of F) (mesh_of F) 1 (line_before blade) tenth rooms)) (length out.old)
        out.new result }
{
    let p = mesh::POINT_COLUMNS * c.particles;
    let r = 2 * c.particles;
    let t = 3 * c.triangles;
    let v = 2 * c.triangles;
    let e = 4 * c.edges;
    let o = 2 * c.boundary;
    let b0 = Point {
        x: blade[0],
        y: blade[1],
    };
    let b1 = Point {
        x: blade[2],
        y: blade[3],
    };
    list_blocks(
        replaced,
        b0,
        b1,
        &points[..p],
        &roots[..r],
        &corners[..t],
        &volumes[..v],
        &ends[..e],
        &lengths[..e],
        &outline[..o],
        out,
    )
}

// Cuts a whole sheet with counts c, whose typed outline was replaced or not, and writes the listing.
fn list_whole(sheet: &[u8], c: SheetCounts, replaced: bool, out: &mut [u8]) -> Option<usize>
    requires { seen_of most sheet.now ≡ whole_with c replaced }
    ensures { Told (printed replaced (cut_of (sheet_of (bits_of sheet.now)).sheet)) (length out.old)
        out.new result }
{
    let mut points = [0.0f32; 128 * mesh::POINT_COLUMNS];
    let mut roots = [0usize; 256];
    let mut corners = [0usize; 384];
    let mut volumes = [0.0f32; 256];
    let mut ends = [0usize; 1024];
    let mut lengths = [0.0f32; 1024];
    let mut outline = [0usize; 512];
    let mut blade = [0.0f32; 4];
    sheet_fronts::read_fronts(
        sheet,
        c,
        &mut points,
        &mut roots,
        &mut corners,
        &mut volumes,
        &mut ends,
        &mut lengths,
        &mut outline,
        &mut blade,
    );
    list_fronts(
        replaced, c, &points, &roots, &corners, &volumes, &ends, &lengths, &outline, &blade, out,
    )
}

// The program from bytes to bytes: the listing of the cut of a sheet, or the line of its refusal, and 0 behind it.
pub fn list_cut(bytes: &[u8], out: &mut [u8]) -> Option<usize>
    ensures { Told (listed bytes.now) (length out.old) out.new result }
{
    let seen = edition::look(bytes, sheet_fronts::LIMITS);
    match seen {
        Ok(k) => list_whole(bytes, k.counts, k.replaced, out),
        Err(e) => listing::write_refused(e.number(), out),
    }
}

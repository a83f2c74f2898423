// Sheets written, in the second edition.
#![tactic(auto)]

ghost use Rattle.std.specs.Prelude.{◌≡◌, ℕ, ◌*◌, length, ltb};
ghost use Rattle.lists.specs.Lists.{padded};
ghost use Rattle.bits.specs.Bits.{bits_of};
ghost use Rattle.outline.specs.Outline.{outline_of};
ghost use Rattle.outline_tables.specs.Rows.{rows3, Even};
ghost use Rattle.sheet.specs.Sheet.{sheet_from};
ghost use Rattle.edition.specs.Edition.{sheet2_bits};
ghost use Rattle.sheet_writing.specs.Writing.{columns_from, answer_of, WriteDone, handed_in, handed_before};
ghost use Rattle.sheet_writing.specs.Work.{Put2};
ghost use Rattle.mesh.specs.Refused.{refusal_in};

use mesh::refusals::Refusal;
use sheet::Counts;

// Whether triangles and edges have an outline of more than 2,048 sides.
fn long_own(
    t0: &[usize],
    t1: &[usize],
    t2: &[usize],
    e0: &[usize],
    e1: &[usize],
    structural: &[usize],
) -> bool
    requires { Even (length t0.now) (length t1.now) (length t2.now)
        × Even (length e0.now) (length e1.now) (length structural.now) }
    ensures { result ≡ ltb 2048 (length (outline_of (rows3 t0.now t1.now t2.now) (rows3 e0.now
        e1.now structural.now))) }
{
    let mut none = [0usize; 1];
    2048 < outline_tables::list_outline(t0, t1, t2, e0, e1, structural, &mut none)
}

// What a writer answers with m bytes lent.
fn refusal(
    m: usize,
    x: &[i64],
    y: &[i64],
    pinned: &[usize],
    t0: &[usize],
    t1: &[usize],
    t2: &[usize],
    e0: &[usize],
    e1: &[usize],
    structural: &[usize],
    blade: &[i64],
) -> Result<(), Refusal>
    ensures { refusal_in result ≡ answer_of (columns_from (handed_before x y pinned t0 t1 t2 e0 e1 structural blade)) m }
{
    sheet_fields::refusal(
        65536,
        x,
        y,
        pinned,
        t0,
        t1,
        t2,
        e0,
        e1,
        structural,
        &t0[..0],
        &t0[..0],
        blade,
    )?;
    if long_own(t0, t1, t2, e0, e1, structural) {
        return Err(Refusal::Size);
    }
    let c = Counts {
        particles: x.len(),
        triangles: t0.len(),
        edges: e0.len(),
        boundary: 0,
    };
    if (sheet::end_bit(c) - 1 + 7) / 8 <= m {
        Ok(())
    } else {
        Err(Refusal::Sheet)
    }
}

// Writes a whole sheet into bytes that are 0.
fn put_all(
    s: &mut [u8],
    x: &[i64],
    y: &[i64],
    pinned: &[usize],
    t0: &[usize],
    t1: &[usize],
    t2: &[usize],
    e0: &[usize],
    e1: &[usize],
    structural: &[usize],
    blade: &[i64],
)
    requires { Put2 (columns_from (handed_in x y pinned t0 t1 t2 e0 e1 structural blade)) s.old }
    ensures { bits_of s.new ≡ padded (8 * length s.old) 0 (sheet2_bits
        (sheet_from (columns_from (handed_before x y pinned t0 t1 t2 e0 e1 structural blade)))) }
{
    let p = x.len();
    let t = t0.len();
    let e = e0.len();
    let at_t = 45 + p * 23;
    let at_e = at_t + t * 30;
    let at_d = at_e + e * 21;
    bits::put_row(s, 0, 11, 11, 11, 2047, p, t);
    bits::put_field(s, 33, 12, e);
    sheet_fields::put_particles(s, 45, x, y, pinned);
    bits::put_rows(s, at_t, 10, 10, 10, t0, t1, t2);
    bits::put_rows(s, at_e, 10, 10, 1, e0, e1, structural);
    sheet_fields::put_blade(s, at_d, blade);
}

// Writes a sheet, whose coordinates are whole numbers; a refusal leaves every lent byte 0.
pub fn write(
    out: &mut [u8],
    x: &[i64],
    y: &[i64],
    pinned: &[usize],
    t0: &[usize],
    t1: &[usize],
    t2: &[usize],
    e0: &[usize],
    e1: &[usize],
    structural: &[usize],
    blade: &[i64],
) -> Result<(), Refusal>
    ensures { WriteDone (handed_before x y pinned t0 t1 t2 e0 e1 structural blade) out.old out.new (refusal_in result) }
{
    bits::blank(out);
    refusal(
        out.len(),
        x,
        y,
        pinned,
        t0,
        t1,
        t2,
        e0,
        e1,
        structural,
        blade,
    )?;
    put_all(out, x, y, pinned, t0, t1, t2, e0, e1, structural, blade);
    Ok(())
}

// The mended sheet written: the rows that stay, one behind the other, from the bytes of the broken one.
ghost use Rattle.std.specs.Prelude.{◌≡◌, true, [], ◌∷◌, ℕ, ◌+◌, ◌*◌, ◌^◌, ◌≤◌, ◌<◌, length, drop};
ghost use Rattle.std.proofs.lemmas.List.Edits.{sets};
ghost use Rattle.lists.specs.Lists.{padded};
ghost use Rattle.bits.specs.Bits.{bits_of};
ghost use Rattle.bits.specs.Rows.{unpack, pack};
ghost use Rattle.bits.specs.Places.{FourIn};
ghost use Rattle.sheet.specs.Sheet.{blade_w};
ghost use Rattle.edition.specs.Edition.{second, typed_of};
ghost use Rattle.mending.specs.Sheets.{bits_as, mended_sheet};
ghost use Rattle.mender.specs.Work.{OneIn, OneKept, KeptIn, Kept, header_as, PutIn};

use sheet::Counts;

// Writes the row at bit `at` to bit `to` of other bytes where its number is 0, and returns the bit behind it.
fn put_one(
    s: &[u8],
    at: usize,
    w0: usize,
    w1: usize,
    w2: usize,
    code: usize,
    out: &mut [u8],
    to: usize,
) -> usize
    requires { OneIn s.now at w0 w1 w2 code out.old to }
    ensures { OneKept s.now at w0 w1 w2 code out.old to out.new result }
{
    if code == 0 {
        let a = bits::field(s, at, w0);
        let b = bits::field(s, at + w0, w1);
        let c = bits::field(s, at + w0 + w1, w2);
        bits::put_row(out, to, w0, w1, w2, a, b, c);
        return to + (w0 + w1 + w2);
    }
    to
}

// Writes the rows from bit `at` on whose numbers are 0 to bit `to` of other bytes, and returns the bit behind them.
fn put_kept(
    s: &[u8],
    at: usize,
    w0: usize,
    w1: usize,
    w2: usize,
    mask: &[usize],
    out: &mut [u8],
    to: usize,
) -> usize
    requires { KeptIn s.now at w0 w1 w2 mask.now out.old to }
    ensures { Kept s.now at w0 w1 w2 mask.now out.old to out.new result }
{
    let n = mask.len();
    let step = w0 + w1 + w2;
    let mut from = at;
    let mut end = to;
    for i in 0..n {
        end = put_one(s, from, w0, w1, w2, mask[i], out, end);
        from += step;
    }
    end
}

// Writes a header in an edition.
fn put_header(out: &mut [u8], second: bool, c: Counts)
    requires { 6 ≤ length out.old }
    ensures { bits_of out.new ≡ sets (bits_of out.old) 0 (header_as second c) }
{
    if second {
        bits::put_row(out, 0, 11, 11, 11, 2047, c.particles, c.triangles);
        bits::put_field(out, 33, 12, c.edges);
    } else {
        bits::put_four(
            out,
            0,
            11,
            12,
            c.particles,
            c.triangles,
            c.edges,
            c.boundary,
        );
    }
}

// Writes the blade at bit `at` to bit `to` of other bytes.
fn put_blade(s: &[u8], at: usize, out: &mut [u8], to: usize)
    requires { FourIn s.now at 11 11 × FourIn out.old to 11 11 }
    ensures { bits_of out.new ≡ sets (bits_of out.old) to (pack blade_w
        (unpack blade_w (drop at (bits_of s.now)))) }
{
    let a = bits::field(s, at, 11);
    let b = bits::field(s, at + 11, 11);
    let c = bits::field(s, at + 22, 11);
    let d = bits::field(s, at + 33, 11);
    bits::put_four(out, to, 11, 11, a, b, c, d);
}

// Writes the mended sheet into bytes that are 0, by the fates of its three lists.
pub fn put_sheet(s: &[u8], triangles: &[usize], edges: &[usize], boundary: &[usize], out: &mut [u8])
    requires { PutIn s.now triangles.now edges.now boundary.now out.old }
    ensures { bits_of out.new ≡ padded (8 * length out.old) 0 (bits_as (second (bits_of s.now))
        (mended_sheet (typed_of (bits_of s.now)))) }
{
    let c = edition::typed::counts_in(s);
    let p = c.particles;
    let start = edition::typed::start_bit(s);
    let at_t = start + p * 23;
    let at_e = at_t + c.triangles * 30;
    let at_b = at_e + c.edges * 21;
    let at_d = at_b + c.boundary * 20;
    let kept = Counts {
        particles: p,
        triangles: mending::staying(triangles),
        edges: mending::staying(edges),
        boundary: mending::staying(boundary),
    };
    put_header(out, edition::typed::is_second(s), kept);
    let none = [0usize; mesh::PARTICLES];
    let to_t = put_kept(s, start, 11, 11, 1, &none[..p], out, start);
    let to_e = put_kept(s, at_t, 10, 10, 10, triangles, out, to_t);
    let to_b = put_kept(s, at_e, 10, 10, 1, edges, out, to_e);
    let to_d = put_kept(s, at_b, 10, 10, 0, boundary, out, to_b);
    put_blade(s, at_d, out, to_d);
}

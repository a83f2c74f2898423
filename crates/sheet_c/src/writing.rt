// The fields of a sheet, as words, written to its bytes, in the second edition.
ghost use Rattle.std.specs.Prelude.{◌≡◌, ◌&&◌, ◌+◌, ◌*◌, ◌≤◌, ◌<◌, length, take};
ghost use Rattle.image.specs.Words.{word_at_of};
ghost use Rattle.sheet_writing.specs.Writing.{WriteDone};
ghost use Rattle.sheet_c.specs.Fields.{signed_of, signed_from, fields_fit_of, besides, SheetWritten};
ghost use Rattle.sheet_c.specs.Work.{fields_few_of, FieldsRoom};
ghost use Rattle.mesh.specs.Refused.{refusal_in};

use mesh::refusals::Refusal;

// The whole number that a word is in two's complement.
fn signed(word: usize) -> i64
    requires { word < 4294967296 }
    ensures { result ≡ signed_of word }
{
    if word < 2147483648 {
        return word as i64;
    }
    word as i64 - 4294967296
}

// Writes n whole numbers, from word `at` on, to the front of out.
fn signed_into(bytes: &[u8], at: usize, n: usize, out: &mut [i64])
    requires { (4 * (at + n) ≤ length bytes.now) × (n ≤ length out.old) }
    ensures { take n out.new ≡ signed_from bytes.now at n }
{
    for i in 0..n {
        out[i] = signed(image::word_at(bytes, at + i));
    }
}

// The bytes are as many as the three counts say.
fn fields_fit(fields: &[u8]) -> bool
    ensures { result ≡ fields_fit_of fields.now }
{
    if fields.len() < 12 {
        return false;
    }
    let p = image::word_at(fields, 0);
    let t = image::word_at(fields, 1);
    let e = image::word_at(fields, 2);
    fields.len() == 4 * (7 + 3 * p + 3 * t + 3 * e)
}

// The counts are within the limits.
fn fields_few(fields: &[u8]) -> bool
    requires { 12 ≤ length fields.now }
    ensures { result ≡ fields_few_of fields.now }
{
    let p = image::word_at(fields, 0);
    let t = image::word_at(fields, 1);
    let e = image::word_at(fields, 2);
    if mesh::PARTICLES < p {
        return false;
    }
    if mesh::TRIANGLES < t {
        return false;
    }
    e <= mesh::EDGES
}

// Both.
fn fields_ok(fields: &[u8]) -> bool
    ensures { result ≡ (fields_fit_of fields.now && fields_few_of fields.now) }
{
    if fields_fit(fields) {
        return fields_few(fields);
    }
    false
}

// Reads the columns of triangles and edges, and writes the sheet of these and of the columns of particles and the blade beside them.
fn write_elements(
    fields: &[u8],
    x: &[i64],
    y: &[i64],
    pinned: &[usize],
    blade: &[i64],
    out: &mut [u8],
) -> Result<(), Refusal>
    requires { FieldsRoom fields.now }
    ensures { WriteDone (besides fields.now (word_at_of fields.now 0) (word_at_of fields.now 1)
        (word_at_of fields.now 2) x.now y.now pinned.now blade.now) out.old
        out.new (refusal_in result) }
{
    let mut t0 = [0usize; mesh::TRIANGLES];
    let mut t1 = [0usize; mesh::TRIANGLES];
    let mut t2 = [0usize; mesh::TRIANGLES];
    let mut e0 = [0usize; mesh::EDGES];
    let mut e1 = [0usize; mesh::EDGES];
    let mut structural = [0usize; mesh::EDGES];
    let t = image::word_at(fields, 1);
    let e = image::word_at(fields, 2);
    let at_t = 3 + 3 * image::word_at(fields, 0);
    let at_e = at_t + 3 * t;
    image::words_into(fields, at_t, t, &mut t0);
    image::words_into(fields, at_t + t, t, &mut t1);
    image::words_into(fields, at_t + 2 * t, t, &mut t2);
    image::words_into(fields, at_e, e, &mut e0);
    image::words_into(fields, at_e + e, e, &mut e1);
    image::words_into(fields, at_e + 2 * e, e, &mut structural);
    sheet_writing::write(
        out,
        x,
        y,
        pinned,
        &t0[..t],
        &t1[..t],
        &t2[..t],
        &e0[..e],
        &e1[..e],
        &structural[..e],
        blade,
    )
}

// Reads the columns of particles and the blade, and writes the sheet.
fn write_fields(fields: &[u8], out: &mut [u8]) -> Result<(), Refusal>
    requires { FieldsRoom fields.now }
    ensures { SheetWritten fields.now out.old out.new (refusal_in result) }
{
    let mut x = [0i64; mesh::PARTICLES];
    let mut y = [0i64; mesh::PARTICLES];
    let mut pinned = [0usize; mesh::PARTICLES];
    let mut blade = [0i64; 4];
    let p = image::word_at(fields, 0);
    let at_blade = fields.len() / 4 - 4;
    signed_into(fields, 3, p, &mut x);
    signed_into(fields, 3 + p, p, &mut y);
    image::words_into(fields, 3 + 2 * p, p, &mut pinned);
    signed_into(fields, at_blade, 4, &mut blade);
    write_elements(fields, &x[..p], &y[..p], &pinned[..p], &blade, out)
}

// Fields written to the bytes of a sheet; they are refused where they are not as many as the counts say, or these are above the limits.
pub fn write_sheet(fields: &[u8], out: &mut [u8]) -> Result<(), Refusal>
    ensures { SheetWritten fields.now out.old out.new (refusal_in result) }
{
    if fields_ok(fields) {
        return write_fields(fields, out);
    }
    bits::blank(out);
    Err(Refusal::Size)
}

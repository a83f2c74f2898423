// One difference as a line of text.
ghost use Rattle.std.specs.Prelude.{◌≡◌, List, [], ◌∷◌, map, ℕ, ◌<◌, eqb};
ghost use Rattle.lists.specs.Lists.{pick, each, same_row_of};
ghost use Rattle.listing.specs.Listing.{decimal};
ghost use Rattle.listing.specs.Work.{Appends};
ghost use Rattle.differences.specs.Differences.{counts, blades, coord_text, texts_of, reading_of, apart, word_of, plural_of};
ghost use Rattle.differences.specs.Work.{same_reading_of, place_differs, row_by, as_row, Coords, CoordsRead, Lists, four_of, Placing, FourFits, Blading};

use crate::Part;

// How far the lines of differences are written: the text, and how many lines it has.
#[derive(Clone, Copy)]
pub struct Lines {
    pub at: Option<usize>,
    pub count: usize,
}

// The four fields of a blade.
#[derive(Clone, Copy)]
pub struct Four {
    pub x0: usize,
    pub y0: usize,
    pub x1: usize,
    pub y1: usize,
}

// Writes a space and a number behind the text.
fn put_plain(out: &mut [u8], at: Option<usize>, n: usize) -> Option<usize>
    ensures { Appends (apart (decimal n)) out.old at out.new result }
{
    let space = listing::put_byte(out, at, b' ');
    listing::put_number(out, space, n)
}

// Writes a space and the coordinate of a field behind the text.
fn put_coord(out: &mut [u8], at: Option<usize>, raw: usize) -> Option<usize>
    requires { raw < 2048 }
    ensures { Appends (apart (coord_text raw)) out.old at out.new result }
{
    if raw < 1024 {
        return put_plain(out, at, raw);
    }
    let sign = listing::put_text(out, at, b" -");
    listing::put_number(out, sign, 2048 - raw)
}

// Writes two numbers, each behind a space.
fn put_two(out: &mut [u8], at: Option<usize>, x: usize, y: usize) -> Option<usize>
    ensures { Appends (each apart (map decimal (x ∷ y ∷ []))) out.old at out.new result }
{
    let first = put_plain(out, at, x);
    put_plain(out, first, y)
}

// Writes three numbers, each behind a space.
fn put_three(out: &mut [u8], at: Option<usize>, x: usize, y: usize, z: usize) -> Option<usize>
    ensures { Appends (each apart (map decimal (x ∷ y ∷ z ∷ []))) out.old at out.new result }
{
    let two = put_two(out, at, x, y);
    put_plain(out, two, z)
}

// Writes the fields of a row, each behind a space.
fn put_row(
    out: &mut [u8],
    at: Option<usize>,
    part: Part,
    x: usize,
    y: usize,
    z: usize,
) -> Option<usize>
    requires { Coords part x y }
    ensures { Appends (each apart (texts_of part (row_by part x y z))) out.old at out.new result }
{
    match part {
        Part::Particles => {
            let first = put_coord(out, at, x);
            let two = put_coord(out, first, y);
            put_plain(out, two, z)
        }
        Part::Triangles => put_three(out, at, x, y, z),
        Part::Edges => put_three(out, at, x, y, z),
        Part::Boundary => put_two(out, at, x, y),
    }
}

// Writes the reading of a place: the fields of its row, each behind a space, of which a boundary entry has the first two; or a dash where there is no such place.
fn put_reading(
    out: &mut [u8],
    at: Option<usize>,
    part: Part,
    r: Option<(usize, usize, usize)>,
) -> Option<usize>
    requires { CoordsRead part r }
    ensures { Appends (each apart (reading_of part (as_row part r))) out.old at out.new result }
{
    match r {
        None => listing::put_text(out, at, b" -"),
        Some((x, y, z)) => put_row(out, at, part, x, y, z),
    }
}

// Writes the word of a list's entry.
fn put_word(out: &mut [u8], at: Option<usize>, part: Part) -> Option<usize>
    ensures { Appends (word_of part) out.old at out.new result }
{
    match part {
        Part::Particles => listing::put_text(out, at, b"particle"),
        Part::Triangles => listing::put_text(out, at, b"triangle"),
        Part::Edges => listing::put_text(out, at, b"edge"),
        Part::Boundary => listing::put_text(out, at, b"boundary"),
    }
}

// Writes a list's name behind a space.
fn put_name(out: &mut [u8], at: Option<usize>, part: Part) -> Option<usize>
    ensures { Appends (apart (plural_of part)) out.old at out.new result }
{
    match part {
        Part::Particles => listing::put_text(out, at, b" particles"),
        Part::Triangles => listing::put_text(out, at, b" triangles"),
        Part::Edges => listing::put_text(out, at, b" edges"),
        Part::Boundary => listing::put_text(out, at, b" boundary"),
    }
}

// Whether two rows have the same fields, in order.
fn same_row(part: Part, x: usize, y: usize, z: usize, u: usize, v: usize, w: usize) -> bool
    ensures { result ≡ same_row_of (row_by part x y z) (row_by part u v w) }
{
    if x != u {
        return false;
    }
    if y != v {
        return false;
    }
    match part {
        Part::Particles => z == w,
        Part::Triangles => z == w,
        Part::Edges => z == w,
        Part::Boundary => true,
    }
}

// Whether two readings of a place are the same.
fn same_reading(
    part: Part,
    r: Option<(usize, usize, usize)>,
    s: Option<(usize, usize, usize)>,
) -> bool
    ensures { result ≡ same_reading_of (as_row part r) (as_row part s) }
{
    match r {
        None => match s {
            None => true,
            Some((u, v, w)) => false,
        },
        Some((x, y, z)) => match s {
            None => false,
            Some((u, v, w)) => same_row(part, x, y, z, u, v, w),
        },
    }
}

// Writes the line of a place, where its readings differ.
pub fn put_place(
    out: &mut [u8],
    l: Lines,
    part: Part,
    k: usize,
    r: Option<(usize, usize, usize)>,
    s: Option<(usize, usize, usize)>,
) -> Lines
    requires { Placing part r s l.count }
    ensures { Lists (place_differs part k (as_row part r) (as_row part s)) out.old l out.new result }
{
    if same_reading(part, r, s) {
        return l;
    }
    let at = l.at;
    let word = put_word(out, at, part);
    let number = put_plain(out, word, k);
    let first = put_reading(out, number, part, r);
    let stroke = listing::put_text(out, first, b" /");
    let second = put_reading(out, stroke, part, s);
    let end = listing::put_byte(out, second, b'\n');
    Lines {
        at: end,
        count: l.count + 1,
    }
}

// Writes the line of a list's counts, where they differ.
pub fn put_count(out: &mut [u8], l: Lines, part: Part, m: usize, n: usize) -> Lines
    requires { l.count < 4096 }
    ensures { Lists (pick (eqb m n) [] (counts part m n ∷ [])) out.old l out.new result }
{
    if m == n {
        return l;
    }
    let at = l.at;
    let word = listing::put_text(out, at, b"count");
    let name = put_name(out, word, part);
    let first = put_plain(out, name, m);
    let stroke = listing::put_text(out, first, b" /");
    let second = put_plain(out, stroke, n);
    let end = listing::put_byte(out, second, b'\n');
    Lines {
        at: end,
        count: l.count + 1,
    }
}

// Whether two blades have the same fields.
fn same_four(a: Four, b: Four) -> bool
    ensures { result ≡ same_row_of (four_of a) (four_of b) }
{
    if a.x0 != b.x0 {
        return false;
    }
    if a.y0 != b.y0 {
        return false;
    }
    if a.x1 != b.x1 {
        return false;
    }
    a.y1 == b.y1
}

// Writes the coordinates of a blade, each behind a space.
fn put_four(out: &mut [u8], at: Option<usize>, f: Four) -> Option<usize>
    requires { FourFits f }
    ensures { Appends (each apart (map coord_text (four_of f))) out.old at out.new result }
{
    let first = put_coord(out, at, f.x0);
    let two = put_coord(out, first, f.y0);
    let three = put_coord(out, two, f.x1);
    put_coord(out, three, f.y1)
}

// Writes the line of the blades, where they differ.
pub fn put_blades(out: &mut [u8], l: Lines, a: Four, b: Four) -> Lines
    requires { Blading a b l.count }
    ensures { Lists (pick (same_row_of (four_of a) (four_of b)) [] (blades (four_of a) (four_of b) ∷ [])) out.old l
        out.new result }
{
    if same_four(a, b) {
        return l;
    }
    let at = l.at;
    let word = listing::put_text(out, at, b"blade");
    let first = put_four(out, word, a);
    let stroke = listing::put_text(out, first, b" /");
    let second = put_four(out, stroke, b);
    let end = listing::put_byte(out, second, b'\n');
    Lines {
        at: end,
        count: l.count + 1,
    }
}

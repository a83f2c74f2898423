// A broken sheet mended, from bytes to bytes: the mended sheet in its own edition, and what is said.
#![tactic(auto)]

ghost use Rattle.std.specs.Prelude.{◌≡◌, ℕ, ◌*◌, length, replicate};
ghost use Rattle.bits.specs.Bits.{bits_of};
ghost use Rattle.mending.specs.Work.{Mendable};
ghost use Rattle.mender.specs.Answers.{MendDone};
ghost use Rattle.mender.specs.Work.{LentMarks, MendIn};

use mesh::refusals::Refusal;

pub mod fates;
pub mod write;

// How many bytes the mended sheet and the text have.
#[derive(Clone, Copy)]
pub struct Mended {
    pub sheet: usize,
    pub text: usize,
}

// Why nothing is mended: the lent bytes are too few for the sheet or the text, or the bytes are refused.
#[derive(Clone, Copy)]
pub enum MendError {
    Short,
    Refused(Refusal),
}

// Writes the mended sheet into bytes that are 0, and the text, by the fates of the three lists.
fn mend_marked(
    s: &[u8],
    triangles: &[usize],
    edges: &[usize],
    boundary: &[usize],
    mended: &mut [u8],
    text: &mut [u8],
) -> Result<Mended, MendError>
    requires { MendIn s.now triangles.now edges.now boundary.now mended.old }
    ensures { MendDone s.now (length mended.old) (length text.old) mended.new
        text.new result }
{
    let c = edition::typed::counts_in(s);
    let kept = sheet::Counts {
        particles: c.particles,
        triangles: mending::staying(triangles),
        edges: mending::staying(edges),
        boundary: mending::staying(boundary),
    };
    let n = crate::fates::byte_len(edition::typed::is_second(s), kept);
    if mended.len() < n {
        listing::finish(text, None);
        return Err(MendError::Short);
    }
    let told = mending::put_said(triangles, edges, boundary, text);
    match told {
        Some(k) => {
            crate::write::put_sheet(s, triangles, edges, boundary, mended);
            Ok(Mended { sheet: n, text: k })
        }
        None => Err(MendError::Short),
    }
}

// Finds the fates of the three lists, in columns that are lent for them, and mends by them.
fn mend_lists(
    s: &[u8],
    triangles: &mut [usize],
    edges: &mut [usize],
    boundary: &mut [usize],
    mended: &mut [u8],
    text: &mut [u8],
) -> Result<Mended, MendError>
    requires { LentMarks s.now (length triangles.old) (length edges.old) (length boundary.old) × (bits_of mended.old
        ≡ replicate (8 * length mended.old) 0) }
    ensures { MendDone s.now (length mended.old) (length text.old) mended.new
        text.new result }
{
    crate::fates::mark_all(s, triangles, edges, boundary);
    mend_marked(s, triangles, edges, boundary, mended, text)
}

// Mends bytes that are not refused, into bytes that are 0.
fn mend_held(s: &[u8], mended: &mut [u8], text: &mut [u8]) -> Result<Mended, MendError>
    requires { Mendable s.now × (bits_of mended.old ≡ replicate (8 * length mended.old) 0) }
    ensures { MendDone s.now (length mended.old) (length text.old) mended.new
        text.new result }
{
    let c = edition::typed::counts_in(s);
    let t = c.triangles;
    let e = c.edges;
    let b = c.boundary;
    let mut triangles = [0usize; mesh::TRIANGLES];
    let mut edges = [0usize; mesh::EDGES];
    let mut boundary = [0usize; mesh::BOUNDARY];
    mend_lists(
        s,
        &mut triangles[..t],
        &mut edges[..e],
        &mut boundary[..b],
        mended,
        text,
    )
}

// Mends a broken sheet: the mended sheet and what is said, each with 0 behind it, or 0 in every lent byte.
pub fn mend_sheet(s: &[u8], mended: &mut [u8], text: &mut [u8]) -> Result<Mended, MendError>
    ensures { MendDone s.now (length mended.old) (length text.old) mended.new
        text.new result }
{
    bits::blank(mended);
    let r = crate::fates::refusal(s);
    match r {
        Ok(()) => mend_held(s, mended, text),
        Err(e) => {
            listing::finish(text, None);
            Err(MendError::Refused(e))
        }
    }
}

// The differences of two sheets, place by place, as text.
#![tactic(auto)]

ghost use Rattle.std.specs.Prelude.{length};
ghost use Rattle.listing.specs.Answers.{Wrote, Told};
ghost use Rattle.differences.specs.Differences.{differences, difference_text};
ghost use Rattle.differing.specs.Differed.{read_sheet, differed};
ghost use Rattle.differing.specs.Work.{Going, second_text, FirstIn};

use sheet::Counts;

pub mod whole;

// The most that a sheet may have.
const LIMITS: Counts = Counts {
    particles: 128,
    triangles: 128,
    edges: 256,
    boundary: 256,
};

// Writes the differences of two whole sheets and how many they are, and 0 behind the text.
fn write_differences(
    first: &[u8],
    c: Counts,
    left: &[usize],
    second: &[u8],
    d: Counts,
    right: &[usize],
    out: &mut [u8],
) -> Option<usize>
    requires { Going first.now c left.now second.now d right.now 0 0 }
    ensures { Wrote (difference_text (differences (read_sheet first.now) (read_sheet second.now))) (length
        out.old) out.new result }
{
    let l = crate::whole::put_all(out, first, c, left, second, d, right);
    let at = l.at;
    let number = listing::put_number(out, at, l.count);
    let end = listing::put_byte(out, number, b'\n');
    listing::finish(out, end)
}

// Looks at the second sheet, where the first is whole.
fn list_second(
    first: &[u8],
    c: Counts,
    left: &[usize],
    second: &[u8],
    out: &mut [u8],
) -> Option<usize>
    requires { FirstIn first.now c left.now }
    ensures { Told (second_text first.now second.now) (length out.old) out.new result }
{
    let mut right = [0usize; 6144];
    let seen = edition::outlines::look_into(second, LIMITS, &mut right);
    match seen {
        Ok(k) => write_differences(first, c, left, second, k.counts, &right, out),
        Err(e) => listing::write_refused(e.number(), out),
    }
}

// The program from bytes to bytes: the differences of two sheets, or the line of a refusal, of the first before one of the second, and 0 behind it.
pub fn list_differences(first: &[u8], second: &[u8], out: &mut [u8]) -> Option<usize>
    ensures { Told (differed first.now second.now) (length out.old) out.new result }
{
    let mut left = [0usize; 6144];
    let seen = edition::outlines::look_into(first, LIMITS, &mut left);
    match seen {
        Ok(k) => list_second(first, k.counts, &left, second, out),
        Err(e) => listing::write_refused(e.number(), out),
    }
}

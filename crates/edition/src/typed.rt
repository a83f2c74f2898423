// Sheets of either edition: the second has no boundary entries.
ghost use Rattle.std.specs.Prelude.{◌≡◌, true, ℕ, ◌+◌, ◌*◌, ◌≤◌, length};
ghost use Rattle.bits.specs.Bits.{bits_of};
ghost use Rattle.sheet.specs.Sheet.{end_of, names_ok, sheet_with};
ghost use Rattle.edition.specs.Edition.{second, bits_in_of, as_first_of, typed_with, typed_seen};
ghost use Rattle.sheet.specs.Work.{CountsRead};
ghost use Rattle.edition.specs.Work.{Framed2, start_of};

use mesh::refusals::Refusal;
use sheet::Counts;

// Whether a sheet is of the second edition.
pub fn is_second(s: &[u8]) -> bool
    requires { 6 ≤ length s.now }
    ensures { result ≡ second (bits_of s.now) }
{
    bits::field(s, 0, 11) == 2047
}

// The counts that a second-edition sheet begins with.
fn counted_second(s: &[u8]) -> Counts
    requires { 6 ≤ length s.now }
    ensures { CountsRead (as_first_of (bits_of s.now)) result }
{
    Counts {
        particles: bits::field(s, 11, 11),
        triangles: bits::field(s, 22, 11),
        edges: bits::field(s, 33, 12),
        boundary: 0,
    }
}

// The counts that a sheet of either edition begins with.
pub fn counts_in(s: &[u8]) -> Counts
    requires { 6 ≤ length s.now }
    ensures { CountsRead (bits_in_of (bits_of s.now)) result }
{
    if is_second(s) {
        return counted_second(s);
    }
    sheet::counted(s)
}

// The bit that the lists of a sheet begin at.
pub fn start_bit(s: &[u8]) -> usize
    requires { 6 ≤ length s.now }
    ensures { result ≡ start_of (bits_of s.now) }
{
    if is_second(s) { 45 } else { 46 }
}

// Every element of a second-edition sheet names particles, and none twice.
fn names_second(s: &[u8], c: Counts) -> bool
    requires { Framed2 s.now c }
    ensures { result ≡ names_ok (sheet_with c (as_first_of (bits_of s.now))) }
{
    let p = c.particles;
    let at_t = 45 + p * 23;
    let at_e = at_t + c.triangles * 30;
    if sheet::rows_ok(s, at_t, 30, c.triangles, true, p) {
        sheet::rows_ok(s, at_e, 21, c.edges, false, p)
    } else {
        false
    }
}

// What a second-edition sheet is, before its outline is looked at: whole, with its counts, or why it is refused.
fn look_second(s: &[u8], limits: Counts) -> Result<Counts, Refusal>
    requires { (6 ≤ length s.now) × (second (bits_of s.now) ≡ true) }
    ensures { result ≡ typed_seen limits s.now }
{
    let c = counted_second(s);
    if sheet::refused_counts(limits, c) {
        return Err(Refusal::Size);
    }
    let end = sheet::end_bit(c) - 1;
    let bytes = (end + 7) / 8;
    if s.len() != bytes {
        return Err(Refusal::Sheet);
    }
    if bits::field(s, end, 8 * bytes - end) != 0 {
        return Err(Refusal::Sheet);
    }
    if names_second(s, c) {
        Ok(c)
    } else {
        Err(Refusal::Name)
    }
}

// What a sheet of either edition is, before its outline is looked at.
pub fn look_typed(s: &[u8], limits: Counts) -> Result<Counts, Refusal>
    ensures { result ≡ typed_seen limits s.now }
{
    if s.len() < 6 {
        return Err(Refusal::Sheet);
    }
    if is_second(s) {
        return look_second(s, limits);
    }
    sheet::look(s, limits)
}

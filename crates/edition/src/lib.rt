// Sheets of either edition, looked at and read into blocks.
#![tactic(auto)]

ghost use Rattle.std.specs.Prelude.{◌≡◌};
ghost use Rattle.edition.specs.Edition.{seen_of};

use mesh::refusals::Refusal;
use sheet::Counts;

pub mod outlines;
pub mod read;
pub mod typed;

// What a whole sheet is: its counts, the boundary's those of the outline that it is read with, and whether its typed outline was replaced.
#[derive(Clone, Copy)]
pub struct Seen {
    pub counts: Counts,
    pub replaced: bool,
}

// What a sheet is: whole, with its counts, or why it is refused.
pub fn look(s: &[u8], limits: Counts) -> Result<Seen, Refusal>
    ensures { result ≡ seen_of limits s.now }
{
    let mut block = [0usize; 6144];
    crate::outlines::look_into(s, limits, &mut block)
}

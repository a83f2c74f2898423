// Workers over the lent blocks of a mesh: what a step came to, and the removal of marked rows, which several steps share.
#![tactic(auto)]

pub mod notes;
pub mod removal;

use mesh::Counts;
use mesh::refusals::Refusal;

// What a step came to: the refusal of the room that lacks, or the new counts.
pub type Ran = Result<Counts, Refusal>;

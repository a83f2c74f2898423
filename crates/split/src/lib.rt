// A split over the lent blocks: one particle by the groups of its fan.
#![tactic(auto)]

pub mod fans;
pub mod grow;
pub mod settle;
pub mod step;

use mesh::refusals::Refusal;

// What the first half of a split came to: the refusal of the room that lacks, or the number of edges at their longest.
pub type Grew = Result<usize, Refusal>;

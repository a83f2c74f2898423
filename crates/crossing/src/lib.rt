// The straps that the blade crosses, over the lent blocks: found, inserted into or snapped to an end one after the other, and the bend edges over them gone.
#![tactic(auto)]

pub mod bends;
pub mod crossed;
pub mod crossings;
pub mod unbent;

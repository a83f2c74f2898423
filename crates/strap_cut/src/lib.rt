// The cut of straps along a blade, over the lent blocks; and the cut of a mesh by its kind.
#![tactic(auto)]

pub mod kinds;
pub mod segments;

// Pieces, which a shared facet holds together, counted.
#![tactic(auto)]

pub mod sides;

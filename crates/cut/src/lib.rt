// The cut of triangles along a blade, over the lent blocks.
#![tactic(auto)]

pub mod facets;

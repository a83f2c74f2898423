// Copies in a split: one edge read, tested, copied, and an end moved; the particles.
#![tactic(auto)]

pub mod edges;
pub mod particles;

// What elements and other edges become in a split, and the table of the edges with them. (Particles: crate copies; the boundary: crate boundary; straddlers: crates straddling and edge_drops.)
#![tactic(auto)]

pub mod fans;
pub mod linked;

// The tables of an accepted mesh: its elements, their corners, the fan of a particle; and its measure.
#![tactic(auto)]

pub mod corners;
pub mod fans;
pub mod measures;
pub mod tables;

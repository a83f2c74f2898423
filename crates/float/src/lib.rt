// The numeric leaves on f32: the rounded square root, the total order, the size, the larger of two, the inverse, the ranges.
#![tactic(auto)]

pub mod abs;
pub mod inverse;
pub mod larger;
pub mod order;
pub mod range;
pub mod root;

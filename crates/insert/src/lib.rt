// One insertion into a strap, over the lent blocks: the plan, two particles, two edges, the boundary, and the step that does it all.
#![tactic(auto)]

pub mod edges;
pub mod particles;
pub mod plan;
pub mod shares;
pub mod sides;
pub mod step;

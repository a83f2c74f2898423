// One way to open a torn edge: what it carries, which particles stand for it, the sides and the reach of a way, and the split across it.
#![tactic(auto)]

pub mod edge;
pub mod families;
pub mod loads;
pub mod opens;
pub mod tears;
pub mod tried;
pub mod ways;

// The public entries that read a mesh. Each checks for itself, refuses by a Refusal (docs/RULES.md, R3), and never touches the mesh it reads.
#![tactic(auto)]

pub mod grouping;
pub mod reading;

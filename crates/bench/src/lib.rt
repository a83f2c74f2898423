// The public entries that give a mesh. Each checks for itself, refuses by a `Refusal` (docs/RULES.md, R3), and never touches the mesh it reads. (Crate readings has those that read.)
#![tactic(auto)]

pub mod tearing;

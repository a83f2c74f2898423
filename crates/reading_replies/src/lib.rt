// The replies to the answers of the entries that only read, and the C functions that need no mesh.
#![tactic(auto)]

pub mod leaves;
pub mod reply;

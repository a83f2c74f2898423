// The reply to a job on the mesh of an image: in blocks that are lent, and in local ones of two sizes.
#![tactic(auto)]

pub mod lent;
pub mod sizes;

// The straddlers across pieces: edges that are no elements, and boundary entries, that join two pieces of a mesh, go.
#![tactic(auto)]

pub mod across;

// A call that gives a mesh: it begins with a copy of the input, and ends with the answer and every lent place.
#![tactic(auto)]

mod closing;
pub mod frame;
pub mod logged;

use mesh::Counts;

// The answer of a call that was not refused: how many rows each list has, and whether anything was split or inserted.
#[derive(Clone, Copy)]
pub struct Answer {
    pub counts: Counts,
    pub changed: bool,
}

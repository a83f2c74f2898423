// An input mesh judged: the tests of a row and of a list, and the refusals 1, 2, 3 in their order.
#![tactic(auto)]

pub mod checks;
pub mod faults;
mod ranges;
pub mod tests;

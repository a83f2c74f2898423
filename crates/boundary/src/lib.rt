// What the boundary of a mesh becomes in a split: each entry at v follows its group, and the faces that come open stand behind them.
#![tactic(auto)]

pub mod entries;
pub mod facets;

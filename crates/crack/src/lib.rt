// A crack across torn edges, over the lent blocks: each edge in turn, and what comes behind them.
#![tactic(auto)]

pub mod body;

// A call that gives a mesh performed: its input copied to the lent blocks unless it is refused, and worked on there.
#![tactic(auto)]

pub mod calls;

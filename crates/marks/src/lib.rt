// Which particles are to be split, and how: marks of particles, and the sides of a fan by the blade.
#![tactic(auto)]

pub mod particles;
pub mod sides;

// By which rule the blade decides: by rounded numbers, as edition 1 does, or by the signs of offsets, as edition 2 does.
#[derive(Clone, Copy)]
pub enum Rule {
    Rounded,
    Signs,
}

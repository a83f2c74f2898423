// The C functions that read: what they ask of a mesh image, said once for all, and their replies.
#![tactic(auto)]

pub mod fans;
pub mod listed;
pub mod meshes;
pub mod questions;
pub mod tabled;
pub mod tiny;
pub mod unread;

// What is asked of a mesh: its pieces, its measure, the measure of what lies in a list of particles, whether sides open a particle with a minimum piece, the groups
// that they make there, or the refusal of bytes beside it that could not be read. A list stands beside it: the particles or the sides, else nothing.
#[derive(Clone, Copy)]
pub enum Question {
    Pieces,
    Measure,
    MeasureOf,
    Opens(usize, usize),
    Groups(usize),
    Unread,
}

// The questions that are put to the blocks of a mesh.
#[derive(Clone, Copy)]
pub enum Asked {
    Opens(usize, usize),
    Groups(usize),
    Unread,
}

// What differs of two sheets: the lines of a place, a count and the blades.
#![tactic(auto)]

pub mod lines;

// The lists of a sheet.
#[derive(Clone, Copy)]
pub enum Part {
    Particles,
    Triangles,
    Edges,
    Boundary,
}

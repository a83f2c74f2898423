// The calls that give a mesh, said once for all: what each is asked to do, and its checks. (Crate perform does it.)
#![tactic(auto)]

pub mod checks;
mod fans;

use blade::Point;

// What is to be done to a mesh: straddlers removed, a particle split, a cut in an edition from one point to another with an insertion fraction, or a crack with a minimum piece.
// A list stands beside it: the sides of a split, the torn edges of a crack, else nothing.
#[derive(Clone, Copy)]
pub enum Job {
    Straddlers,
    Split(usize),
    Cut(usize, Point, Point, f32),
    Crack(usize),
}

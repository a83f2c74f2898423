// Seven blocks of columns held as a mesh, with the log beside them: its rows changed, the whole copied and finished.
#![tactic(auto)]

pub mod refusals;
pub mod rows;
pub mod whole;

// How many columns of points there are: x, y, rest x, rest y, mass, inverse mass, velocity x, velocity y.
pub const POINT_COLUMNS: usize = 8;

// How many columns of roots there are: the root and the damaged flag.
pub const ROOT_COLUMNS: usize = 2;

// How many columns of corners there are: the three particles of a triangle.
pub const CORNER_COLUMNS: usize = 3;

// How many columns of volumes there are: rest volume and stress.
pub const VOLUME_COLUMNS: usize = 2;

// How many columns of ends there are: the two particles of an edge, the structural flag and the torn flag.
pub const END_COLUMNS: usize = 4;

// How many columns of lengths there are: rest length, initial rest length, impulse and stress.
pub const LENGTH_COLUMNS: usize = 4;

// How many columns of the outline there are: the two particles of a boundary entry.
pub const SIDE_COLUMNS: usize = 2;

// How many words an entry of the log has.
pub const ENTRY_WORDS: usize = 6;

// The most particles of a mesh.
pub const PARTICLES: usize = 1024;

// The most triangles of a mesh.
pub const TRIANGLES: usize = 1024;

// The most edges of a mesh.
pub const EDGES: usize = 2048;

// The most boundary entries of a mesh.
pub const BOUNDARY: usize = 2048;

// The most elements of a mesh, triangles or straps.
pub const ELEMENTS: usize = 2048;

// The most corners of all elements of a mesh.
pub const ELEMENT_CORNERS: usize = 4096;

// The most entries of a log.
pub const ENTRIES: usize = 4096;

// How many columns of a particle there are in all, as an image has them: those of points, the root and the damaged flag.
pub const PARTICLE_WORDS: usize = 10;

// How many of each list's places are in use.
#[derive(Clone, Copy)]
pub struct Counts {
    pub particles: usize,
    pub triangles: usize,
    pub edges: usize,
    pub boundary: usize,
    pub log: usize,
}

// How many rows each list has room for.
#[derive(Clone, Copy)]
pub struct Rooms {
    pub particles: usize,
    pub triangles: usize,
    pub edges: usize,
    pub boundary: usize,
    pub log: usize,
}

// One edge.
#[derive(Clone, Copy)]
pub struct EdgeRow {
    pub a: usize,
    pub b: usize,
    pub structural: usize,
    pub torn: usize,
    pub rest: f32,
    pub initial: f32,
    pub impulse: f32,
    pub stress: f32,
}

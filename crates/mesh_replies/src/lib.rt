// Between an image and the blocks of a call that gives a mesh: the image read into them, and the reply written from them.
#![tactic(auto)]

pub mod outcome;
pub mod placing;

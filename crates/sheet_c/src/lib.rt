// Sheets on their way to and from a host: a sheet's bytes to its blade and the image of its mesh, and fields to a sheet's bytes.
#![tactic(auto)]

pub mod reading;
pub mod writing;

//! The names of the tiles of a grid in order: by a name its tile is found in time that grows with the name and the logarithm of how
//! many there are.
#![tactic(auto)]

mod names;

pub use names::TileNames;

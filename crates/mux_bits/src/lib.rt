//! The device bits of the muxes of a graph in rows, from the bits that were gathered for the databases of its tiles.
#![tactic(auto)]

mod places;
mod rows;

pub use places::TileBits;
pub use rows::bits_of_graph;

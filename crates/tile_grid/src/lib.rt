//! The grid of a device, `tilegrid.json`: its tiles, and the places that their names give.
#![tactic(auto)]

mod errors;
mod grid;
mod places;
mod tiles;

pub use errors::GridError;
pub use grid::{Grid, read};
pub use tiles::Tile;

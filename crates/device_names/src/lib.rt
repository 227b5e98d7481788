//! A device as its files describe it, and the names that count in a tile.
#![tactic(auto)]

mod cell_names;
mod databases;
mod device;
mod names;
mod routing_names;
mod tile_names;

pub use databases::Databases;
pub use device::Device;
pub use names::LentNames;
pub use tile_names::{names_in, outputs_in};

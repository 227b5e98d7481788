//! A device with its numbers and its names in order: by a name its tiles, wires, muxes and settings are found, and what a program
//! keeps of the names of a database is kept once for each type of tile.
#![tactic(auto)]

mod arcs;
mod databases;
mod device;
mod kept;
mod wires;

pub use device::NamedDevice;

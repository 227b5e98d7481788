//! A device whose wires have numbers, and its muxes by numbers, gathered tile by tile from the slots of tile types.
#![tactic(auto)]

mod arcs;
mod device;
mod errors;
mod lent;
mod muxes;

pub use device::DeviceNumbers;
pub use errors::CountError;

//! The number of the wire of each slot of each tile of a device.
#![tactic(auto)]

mod numbers;
mod rows;

pub use rows::SlotWires;

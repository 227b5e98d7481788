//! The bits of the muxes of the types of a device's tiles, gathered once for each type.
#![tactic(auto)]

mod gathered;
mod moved;

pub use moved::MovedBits;

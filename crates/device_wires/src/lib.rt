//! A device as its files describe it, and the wires that it names, in wire order, under numbers.
#![tactic(auto)]

mod errors;
mod gather;
mod gathered;
mod keys;
mod wires;

pub use device_names::{Databases, Device};
pub use errors::WiresError;
pub use wires::{Wires, wires_of, wires_with};

#[cfg(test)]
mod tests;

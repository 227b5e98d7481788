//! Labels of wires: the domain of each, and whether it is the wire of a pin.
#![tactic(auto)]

mod domains;
mod labels;
mod marks;

pub use labels::Labels;

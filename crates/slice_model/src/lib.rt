//! The cells of an image: the tables, registers and pads at the sites that a side file names, or the first fault.
#![tactic(auto)]

mod faults;
mod pads;
mod placing;
mod quiet;
mod registers;
mod setting_bits;
mod shapes;
mod slices;
mod standing;
mod tables;
mod unnamed;
mod values;
mod whole;
mod wires;

pub use whole::cells;

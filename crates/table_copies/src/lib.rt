//! Whether the three tables of a triple give different outputs, and at which least assignment of bits to what feeds them.
#![tactic(auto)]

mod copies;
mod differing;
mod digits;
mod feeders;
mod firsts;
mod least;
mod outputs;
mod places;
mod printed;
mod rows;

pub use differing::tables_differ;

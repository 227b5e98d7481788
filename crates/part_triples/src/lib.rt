//! The triple of cells in which each part with an output stands, by numbers.
#![tactic(auto)]

mod alike;
mod listed;
mod names;
mod numbers;
mod part_numbers;
mod places;
mod triples;

pub use numbers::{CellTripleId, OfCellTriple};
pub use triples::PartTriples;

//! The side file of a design: which sites hold which named cells, their copies, and the voters.
#![tactic(auto)]

mod checks;
mod copies;
mod digest;
mod domains;
mod elements;
mod errors;
mod listed;
mod names;
mod printed;
mod reader;
mod side;
mod uses;

pub use elements::{Placed, Triple, Voter};
pub use errors::SideError;
pub use printed::print;
pub use reader::read;
pub use side::Side;

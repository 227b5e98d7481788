//! The numbers of parts by their names, and so of the three copies of a part.
#![tactic(auto)]

mod keys;
mod numbers;
mod part_numbers;

pub use numbers::CopyNumbers;
pub use part_numbers::PartNumbers;

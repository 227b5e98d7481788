//! The lines that `analyse` prints of bad bits.
#![tactic(auto)]

mod lines;
mod places;

pub use lines::{push_bad_line, unsafe_line};
pub use places::PlaceName;

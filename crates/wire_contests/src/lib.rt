//! Wires that two drivers contest: the least one, with the two least wires that drive it.
#![tactic(auto)]

mod contest;
mod search;
mod two;

pub use contest::Contest;
pub use search::first_contest;

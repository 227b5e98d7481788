//! An arc by its numbers, found among the arcs of a graph, which stand in arc order.
#![tactic(auto)]

mod key;
mod search;

pub use key::ArcKey;
pub use search::number_of;

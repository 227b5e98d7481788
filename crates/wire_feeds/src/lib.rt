//! Feeds of wires: the cell outputs from which they are reached along links.
#![tactic(auto)]

mod feeds;
mod noted;
mod walk;

pub use feeds::feeds_along;

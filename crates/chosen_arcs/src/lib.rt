//! The arcs of a mux that an image chooses, and those that conduct after flips.
#![tactic(auto)]

mod best;
mod flips;
mod laws;

pub use best::chosen;
pub use flips::conducting;
pub use laws::places_are_in_order;

//! The arcs of a graph that an image chooses, and the links that they make with fixed connections and joins.
#![tactic(auto)]

mod chosen;
mod fitting;
mod linking;
mod most;

pub use chosen::chosen_arcs;
pub use linking::all_links;

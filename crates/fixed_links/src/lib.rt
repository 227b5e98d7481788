//! The fixed connections and joins of a device, and its cell outputs, made from the slots of tile types: no name is looked up
//! for a tile.
#![tactic(auto)]

mod gather;
mod laws;
mod shapes;
mod slots;

pub use gather::{TileLinks, links_of};
pub use laws::slots_give_the_links;

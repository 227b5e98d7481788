//! The muxes and arcs of tiles by numbers, made from the slots of their types: no name is looked up for a tile.
#![tactic(auto)]

mod arcs;
mod laws;
mod muxes;
mod slots;

pub use arcs::add_arcs;
pub use laws::slots_give_the_tile;
pub use muxes::add_muxes;
pub use slots::{MuxSlots, slots_of_muxes, wire_of};

//! The device bits of the muxes of a database, gathered once and moved to each tile of its type.
#![tactic(auto)]

mod gathered;
mod ignored;
mod moved;
mod place_bit;

pub use gathered::bits_of_muxes;
pub use ignored::is_ignored;
pub use moved::add_pairs;
pub use place_bit::PlaceBit;

//! What the tiles of one type share, kept once for each type: the database, and the names that count as slots.
#![tactic(auto)]

mod ids;
mod slots;
mod tile_type;
mod types;

pub use ids::{OfSlot, OfType, SlotId, TypeId};
pub use tile_type::TileType;
pub use types::TileTypes;

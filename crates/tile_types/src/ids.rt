//! Numbers of tile types and of their slots.

use rr_ids::Number;

/// Marks the numbers of tile types.
pub struct OfType;

/// Marks the numbers of the slots of a tile type.
pub struct OfSlot;

/// The number of a tile type.
pub type TypeId = Number<OfType>;

/// The number of a slot of a tile type.
pub type SlotId = Number<OfSlot>;

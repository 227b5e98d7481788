//! The numbers of parts and pins.

use rr_ids::Number;

/// Marks the numbers of parts with an output.
pub struct OfSource;

/// Marks the numbers of pins.
pub struct OfPin;

/// The number of a part with an output among those of its cells.
pub type SourceId = Number<OfSource>;

/// The number of a pin among those of its cells.
pub type PinId = Number<OfPin>;

//! The parts of cells with an output, and all pins, in flat lists under numbers. They lend their cells; no name is copied.
#![tactic(auto)]

mod numbers;
mod order;
mod part_pins;
mod part_sources;
mod whole;

pub use numbers::{OfPin, OfSource, PinId, SourceId};
pub use order::{compare_parts, compare_pins};
pub use whole::Parts;

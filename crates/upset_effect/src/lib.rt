//! What a flip of device bits does in a live routing: the wires that are hit and disturbed, and the cells that are touched.
#![tactic(auto)]

mod arcs;
mod behind;
mod bits;
mod decided;
mod hits;
mod order;
mod rule;
mod shorts;
mod sinks;
mod sources;
mod told;
mod touched;
mod whole;

pub use bits::is_one_among;
pub use decided::is_shorted;
pub use told::Effect;
pub use whole::{effect, roots};

//! The live routing of a text over its graph, or the line of the first check that refuses the text: of its lines, of arcs that
//! differ, and of contested wires.
#![tactic(auto)]

mod error;
mod lines;
mod names;
mod routed;

pub use error::{LoadError, refuse};
pub use lines::image_or_refused;
pub use names::wire_or_none;
pub use routed::{live_or_refused, wire_at};

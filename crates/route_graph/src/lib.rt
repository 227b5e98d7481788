//! The routing graph of a device: its wires, muxes, arcs, fixed connections, joins, cell outputs and device bits by numbers, in rows, and
//! its tiles, muxes, arcs and settings by name.
#![tactic(auto)]

mod errors;
mod graph;
mod made;
mod naming;
mod owned;
mod routing;

pub use errors::{GraphError, OwnedWire};
pub use graph::RouteGraph;
pub use made::build;

//! The arcs that the lines of a text name, and the least mux at which they differ from the arcs that an image chooses.
#![tactic(auto)]

mod differ;
mod least;
mod lines;
mod marks;
mod named;

pub use differ::arcs_differ;
pub use least::{sink_name, tile_name};
pub use lines::line_arcs;
pub use marks::marks_of;
pub use named::ArcNames;

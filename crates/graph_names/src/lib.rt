//! How the names of a text are looked up over what a program keeps of the graph of a device: muxes, patterns and settings by name,
//! and the names and patterns behind the numbers of muxes and arcs.
#![tactic(auto)]

mod behind;
mod databases;
mod muxes;
mod settings;
mod sources;

pub use behind::{pattern_of, sink_name, source_name};
pub use databases::TileDatabases;
pub use muxes::mux_named;
pub use settings::{enum_named, option_named, word_named};
pub use sources::pattern_named;

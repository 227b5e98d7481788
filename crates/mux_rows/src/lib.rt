//! The muxes of a routing graph in flat arrays, with the muxes of each tile and those into each wire. A mux takes 20 bytes.
#![tactic(auto)]

mod keys;
mod mux;
mod mux_table;

pub use mux::MuxInfo;
pub use mux_table::MuxRows;

#[cfg(test)]
mod tests;

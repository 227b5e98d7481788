//! The mux of a tile at a place of its database, found among the muxes of the tile, whose places rise.
#![tactic(auto)]

mod search;

pub use search::mux_at;

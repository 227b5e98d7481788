//! The places of a list in rows under their keys: the arcs out of a wire, the arcs of a mux, the muxes into a wire. One
//! proof serves all of them.
#![tactic(auto)]

mod rows;

pub use rows::rows_of_places;

#[cfg(test)]
mod tests;

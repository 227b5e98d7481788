//! The muxes and arcs of a device in rows, as a routing graph lends them.
#![tactic(auto)]

mod errors;
mod rows;

pub use errors::RowsError;
pub use rows::{GraphRows, rows_of};

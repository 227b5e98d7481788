//! The arcs of a routing graph in arc order, in flat arrays: by sink, source, mux, then place in the database. An arc
//! takes 28 bytes: 16 for its numbers and 4 in each of three lists of rows. No pattern is copied.
#![tactic(auto)]

mod arc;
mod arc_table;
mod keys;
mod sorted;

pub use arc::ArcInfo;
pub use arc_table::ArcRows;

#[cfg(test)]
mod tests;

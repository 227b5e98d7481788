//! Rows that grow and shrink at their ends, in one flat array with room for each.
#![tactic(auto)]

mod rows;
mod spans;

pub use rows::OpenRows;

#[cfg(test)]
mod tests;

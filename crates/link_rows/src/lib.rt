//! Links between wires in order with rows both ways, and cell outputs in order, as a routing graph keeps them.
#![tactic(auto)]

mod cells;
mod errors;
mod rows;

pub use cells::CellOutputs;
pub use errors::OutputsError;
pub use rows::LinkRows;

#[cfg(test)]
mod tests;

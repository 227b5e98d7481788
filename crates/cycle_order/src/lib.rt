//! Nodes in an order in which each comes after all that lead to it, or the least node that reaches itself.
#![tactic(auto)]

mod cycles;
mod error;
mod in_turn;
mod listed;
mod node;
mod ordered;

pub use error::OrderError;
pub use node::{NodeId, OfNode};
pub use ordered::order;

#[cfg(test)]
mod tests;

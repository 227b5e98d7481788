//! Links in order: by sink, then by source, each once.
#![tactic(auto)]

mod link;
mod order;

pub use link::Link;
pub use order::{in_order, sinks, sources};

#[cfg(test)]
mod tests;

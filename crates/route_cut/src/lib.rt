//! Cuts, which show that there is no path, and a check of them.
#![tactic(auto)]

use rr_ids::{List, WireId};

mod checks;
mod edges;
mod kept;
mod members;

pub use checks::check;

/// Wires that no usable arc and no link leads out of, and the wires outside to which an arc leads from inside: the
/// rim. Both are in wire order, each wire once, where the cut passes `check`.
#[derive(Debug, Drop)]
pub struct Cut {
    pub inside: List<WireId>,
    pub rim: List<WireId>,
}

#[cfg(test)]
mod tests;

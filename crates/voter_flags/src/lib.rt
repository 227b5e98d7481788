//! Which parts of a circuit are voters, by the list of a side file.
#![tactic(auto)]

mod voters;

pub use voters::voter_parts;

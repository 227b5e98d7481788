//! The search for the path to a pin, over the arcs and rules of one net: one of least weight, of these the first, or
//! where there is none the least cut.
//!
//! The path is that of `pin_search`. Only where there is none, what is reached from the net's tree is gathered: a list of
//! wires that grows while it is gone over (`spread`, `gather`). Each arc of these wires is met once, and each wire to which
//! one leads is asked once whether it may be entered (`meet`); those that stay outside are the rim (`cut`). What a search
//! came to is cleared again (`clear`), and nothing else is looked at.
#![tactic(auto)]

mod clear;
mod cut;
mod gather;
mod meet;
mod reach;
mod search;
mod space;
mod spread;

pub use search::{PathAnswer, least_path};
pub use space::SearchSpace;

#[cfg(test)]
mod tests;

//! The search for the path to a pin, backward from the pin: one of least weight, of these the first, or that there is
//! none.
//!
//! Labels spread as in Dijkstra's method, but from the pin, against arcs and links, with membership in the tree as a test
//! (`spread`, `search`): a net of many pins doesn't go over its tree for each of them. What differs from the method: a
//! label is a weight and the first of the arcs that it stands for, so that the first of the least lists is read off the
//! labels forward (`walk`); links weigh nothing, so a wire that was spread from may get an earlier first arc, and then
//! waits again; no label beyond that of the best arc out of the tree is given. What is proved rests on no order of
//! wires, which only saves work. What a search came to is cleared again (`clear`), and nothing else is looked at, so a
//! search costs what its surroundings cost and not what the device costs.
#![tactic(auto)]

mod clear;
mod finding;
mod front;
mod label;
mod search;
mod space;
mod spread;
mod walk;
mod wires;

pub use finding::{Path, find};
pub use space::PinSpace;

#[cfg(test)]
mod tests;

//! What is known of cells that are read: whether their parts and pins have numbers, and two laws of their names.
#![tactic(auto)]

mod counts;
mod known;

pub use known::{are_few, parts_number_once, slices_stand_in_order};

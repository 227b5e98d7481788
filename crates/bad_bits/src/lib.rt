//! All bad bits of a live routing, each with two domains and a place of each.
#![tactic(auto)]

mod all;
mod bad;
mod places;
mod touched;

pub use all::bad_bits;
pub use bad::{BadBit, Place};

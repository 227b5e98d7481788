//! The set of the configuration memory's device bits that are 1.
#![tactic(auto)]

mod image;
mod laws;
mod word;

pub use image::Image;
pub use laws::{bits_are_members, same_members_are_same_bits};

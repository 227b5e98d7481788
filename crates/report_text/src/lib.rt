//! The texts that the program prints, made whole before a byte of them is printed.
#![tactic(auto)]

mod arguments;
mod checked;
mod named;
mod pieces;
mod refusal;
mod refused;

pub use checked::{Counts, checked_text, safe_text};
pub use named::{PartName, PinName, Wire};
pub use pieces::{push_number, push_wire, push_word};
pub use refusal::Refusal;
pub use refused::refused_text;

#[cfg(test)]
mod tests;

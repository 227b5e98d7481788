//! Copies that differ: pins that aren't fed alike, and registers of a triple that aren't copies of each other.
#![tactic(auto)]

mod feeds;
mod field;
mod fields;
mod inputs;
mod outputs;
mod pair;
mod registers;

pub use feeds::fed_alike;
pub use field::Field;
pub use fields::first_field;
pub use outputs::outputs_differ;

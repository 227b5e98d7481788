//! The names in a database of a tile type, in order: by a name its mux, arc, word, enum or option is found in time that
//! grows with the name and the logarithm of how many there are.
#![tactic(auto)]

mod named;
mod names;
mod parts;
mod places;

pub use names::DatabaseNames;

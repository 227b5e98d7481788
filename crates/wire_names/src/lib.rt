//! Which wire a name stands for at a tile's place, and the numbers of wires by name.
#![tactic(auto)]

mod code;
mod distance;
mod laws;
mod lent_rules;
mod names;
mod relative;
mod slot;
mod wire;

pub use laws::{no_number_is_not_there, number_is_place};
pub use lent_rules::LentRules;
pub use names::{Names, NamesError};
pub use relative::Relative;
pub use slot::Slot;
pub use wire::{WireName, place};

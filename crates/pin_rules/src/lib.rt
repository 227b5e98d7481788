//! The rules of pins that need no tables of copies: open pins, clocks and domains. Each call gives the least pin or register
//! that breaks its rule.
#![tactic(auto)]

mod checks;
mod least;
mod owners;
mod read;
mod rules;
mod tables;
mod unclocked;

pub use checks::{clock_as_data, foreign_read, open_pin};
pub use owners::{PinOwner, pin_owners};
pub use read::read_parts;
pub use unclocked::not_clocked;

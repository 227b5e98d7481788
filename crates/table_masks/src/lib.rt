//! Tables whose output one other domain changes.
#![tactic(auto)]

mod feeds;
mod masking;
mod pins;
mod table_pin;
mod tables;
mod unmasked;

pub use tables::not_masking;
pub use unmasked::Unmasked;

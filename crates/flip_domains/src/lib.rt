//! The domains of a flip of device bits in a live routing.
#![tactic(auto)]

mod flips;
mod gathered;
mod set;

pub use flips::{domains_of_flips, is_bad};
pub use set::Domains;

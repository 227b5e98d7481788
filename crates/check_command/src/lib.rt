//! The command `check` over a design that is read: the counts of a design that is accepted, or the first refusal.
#![tactic(auto)]

mod accepting;
mod checking;

pub use checking::checked;

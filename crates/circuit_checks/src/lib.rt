//! The checks of a circuit in their order: that named cells feed all pins, and the rules of triplication; or the line of the first that
//! refuses it.
#![tactic(auto)]

mod all_checks;
mod listed;
mod names;
mod pins;
mod rules;
mod sources;
mod whole;

pub use all_checks::circuit_or_refused;
pub use listed::Listed;
pub use rules::rules_or_refused;
pub use sources::feeds_or_refused;

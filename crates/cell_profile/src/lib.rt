//! The cell profile: which wires and settings of a tile type make slices and pads.
#![tactic(auto)]

mod choices;
mod errors;
mod judges;
mod kinds;
mod known;
mod profile;
mod rules;
mod takes;

pub use choices::{Case, Choice};
pub use errors::ProfileError;
pub use kinds::{Join, PadKind, RegisterKind, Require, SliceKind, TableKind};
pub use profile::{Profile, read};
pub use takes::Take;

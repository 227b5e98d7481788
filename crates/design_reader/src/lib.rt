//! The reading of the files of a design, each once, in the order in which their refusals count.
#![tactic(auto)]

mod databases;
mod design;
mod errors;
mod files;
mod names;
mod readers;
mod types;

pub use design::{ReadDesign, read_design};
pub use errors::FileError;

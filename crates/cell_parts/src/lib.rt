//! The cells of a design as a program keeps them, and their parts and pins one by one.
#![tactic(auto)]

mod cells;
mod parts;

pub use cells::{Cells, Input, PadCell, RegisterCell, Role, SliceCell, TableCell};
pub use parts::{Kind, PartKind, Pin, Source};

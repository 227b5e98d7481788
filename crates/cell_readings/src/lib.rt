//! The settings of cells as they are read in an image: what a choice takes, and the first setting of a cell whose value isn't
//! modelled. And whether kinds of slices have equal shape.
#![tactic(auto)]

mod choices;
mod errors;
mod faults;
mod lists;
mod shapes;

pub use choices::{choice_value, take_at};
pub use errors::CellError;
pub use faults::{choice_fault, pad_fault};
pub use lists::slice_fault;
pub use shapes::equal_shape;

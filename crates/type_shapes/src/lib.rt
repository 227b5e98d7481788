//! The muxes of each type of a device's tiles by slots, once for all tiles of the type.
#![tactic(auto)]

mod shapes;

pub use shapes::{Shapes, shapes_of};

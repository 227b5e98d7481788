//! Where the cells of a side file stand: the site of a placed cell, and the role of a pad, found by names in time that grows
//! with the logarithm of how many there are.
#![tactic(auto)]

mod entries;
mod first_named;
mod in_order;
mod kinds;
mod named;
mod pad_rows;
mod pairs;
mod rows;
mod side_names;
mod sites;

pub use in_order::in_name_order;
pub use kinds::Kinds;
pub use named::{Named, Paired};
pub use pad_rows::PadRows;
pub use side_names::SideNames;
pub use sites::{PadSite, SliceSite};

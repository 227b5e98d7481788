//! The links between the parts of cells that tables make, from what feeds the pins of a table to the table, and an order of parts
//! along them.
#![tactic(auto)]

mod ends;
mod feeding;
mod in_order;
mod laws;

pub use feeding::{TableLink, table_links};
pub use in_order::levels;
pub use laws::links_tell_reading;

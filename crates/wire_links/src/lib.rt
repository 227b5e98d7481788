//! What conducts between wires: links, drivers, feeds, and what is below a wire. Wires are numbers here; no graph is known.
#![tactic(auto)]

mod drivers;
mod error;
mod joined;
mod parts;
mod reached;
mod rows;

pub use error::LinksError;
pub use joined::WireLinks;
pub use parts::JoinedRows;

#[cfg(test)]
mod tests;

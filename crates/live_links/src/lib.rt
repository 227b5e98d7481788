//! Links that are joined to a clean routing, and grow and shrink: the last link that was added is taken back first.
#![tactic(auto)]

mod added;
mod feeds;
mod grow;
mod opened;
mod path;
mod stack;

pub use added::AddedLink;
pub use stack::LinkStack;

#[cfg(test)]
mod tests;

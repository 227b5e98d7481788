//! Items under the numbers of their keys, made by one counting sort.
#![tactic(auto)]

mod counts;
mod rows;

pub use rows::Grouped;

#[cfg(test)]
mod tests;

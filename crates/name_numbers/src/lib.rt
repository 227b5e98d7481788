//! Names that are lent, each once, under numbers in order of first use.
#![tactic(auto)]

mod numbers;

pub use numbers::NameNumbers;

#[cfg(test)]
mod tests;

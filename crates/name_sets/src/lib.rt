//! Lists of names in which a name is found without a pass over the list.
#![tactic(auto)]

mod name_set;

pub use name_set::NameSet;

#[cfg(test)]
mod tests;

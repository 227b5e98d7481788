//! The words of a command line: the command that they say, or the first word that can't stand where it stands.
#![tactic(auto)]

mod bits;
mod command;
mod errors;
mod given;
mod judged;
mod read;
mod tables;

pub use command::{Command, Hardening, Inputs, Rip};
pub use errors::WordsError;
pub use read::command_of;

#[cfg(test)]
mod tests;

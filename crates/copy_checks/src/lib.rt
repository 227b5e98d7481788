//! The least part whose copies differ, and in what: its table, a field of its register, or what feeds its output pad.
#![tactic(auto)]

mod copies;
mod design;
mod listed;
mod numbered;
mod outputs;
mod pads;
mod registers;
mod tables;
mod unlike;
mod whole;

pub use unlike::Unlike;
pub use whole::copies_unlike;

//! How a run ends, and what it prints then, made whole before a byte of it is printed.
#![tactic(auto)]

mod reply;
mod status;

pub use reply::{Reply, push_number, push_word, refused, unread, unread_text, usage};
pub use status::{Status, exit_number};

//! Tables of cases, which programs run their readers over, and the texts of answers to them.
#![tactic(auto)]

mod phrases;
mod table;

pub use phrases::{fault, plain_fault, push_line, push_number, push_word};
pub use table::{bytes_of, is_case, text_of, written_out};

//! The values of a tile's settings in an image: of an enum the option that fits with the most bits, and of a word its bits.
//! No call takes memory but the one that prints a word's bits.
#![tactic(auto)]

mod enums;
mod forms;
mod values;
mod word_bits;

pub use enums::enum_value;
pub use forms::same_forms;
pub use values::value_at;
pub use word_bits::{word_digits, word_number};

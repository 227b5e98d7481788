//! Lines, words, numbers and pattern bits of a text. Lines and words are slices of the text that is read: no
//! call copies a byte or takes memory, and a walk over all lines and words looks at each byte a few times.
//!
//! ```
//! for line in lines(text) {
//!     for word in line.before_hash().words() {
//!         let number = decimal(word.text);
//!     }
//! }
//! ```
#![tactic(auto)]

ghost use Rattle.std.specs.Prelude.{◌≡◌, ◌≤◌, length};
ghost use Rattle.std.specs.List.{position_or_len};
ghost use Rattle.memchr.specs.Find.{is_byte};
ghost use Rattle.texts.specs.Lines.{lines_of};

use memchr::memchr;

mod known;
mod line;
mod number;
mod pattern;
mod word;

pub use known::KnownNames;
pub use line::{Line, Lines};
pub use number::decimal;
pub use pattern::{PatternBit, pattern_bit};
pub use word::{Word, Words};

/// The lines of a text, in order, numbered from 1: what stands between line feeds, without a carriage return
/// before the line's end. Behind a last line feed there is no line.
pub fn lines<'a>(text: &'a [u8]) -> Lines<'a>
    ensures { result ≡ lines_of text.now }
{
    Lines::new(text)
}

// The place of the first such byte, or the length where there is none.
fn place_or_len(byte: u8, text: &[u8]) -> usize
    ensures place { result ≡ position_or_len (is_byte byte) text.now }
    ensures within { result ≤ length text.now }
{
    memchr(byte, text).unwrap_or(text.len())
}

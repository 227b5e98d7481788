//! Lines, words, numbers and pattern bits.

use anyhow::Result;
use case_tables::{push_line, push_number, push_word};
use std::alloc::Global;
use text_cut::{Line, decimal, lines, pattern_bit};

// Adds a place of a text.
fn push_place(alloc: Global, text: &mut Vec<u8>, place: usize) -> Result<()> {
    let digits = format!(in alloc; "{place}")?;
    push_word(text, digits.as_bytes())
}

fn push_line_of(alloc: Global, text: &mut Vec<u8>, line: &Line<'_>) -> Result<()> {
    push_line(text, 1, "line")?;
    push_number(alloc, text, line.number)?;
    push_place(alloc, text, line.start)?;
    push_word(text, line.text)?;
    push_line(text, 2, "words")?;
    for word in line.before_hash().words() {
        push_place(alloc, text, word.start)?;
        push_word(text, word.text)?;
    }
    Ok(())
}

/// Each line of a text with its number, its place and its bytes, and the places and bytes of its words before a `#`.
pub fn lines_of(alloc: Global, bytes: &[u8]) -> Result<Vec<u8>> {
    let mut text = Vec::from_slice(alloc, b"lines")?;
    for line in lines(bytes) {
        push_line_of(alloc, &mut text, &line)?;
    }
    Ok(text)
}

/// The number that a word is, or `none`.
pub fn number_of(alloc: Global, word: &[u8]) -> Result<Vec<u8>> {
    match decimal(word) {
        Some(number) => Ok(format!(in alloc; "{number}")?.into_bytes()),
        None => Ok(Vec::from_slice(alloc, b"none")?),
    }
}

/// The frame and the bit that a word spells, and whether it is 1 there; or `none`.
pub fn bit_of(alloc: Global, word: &[u8]) -> Result<Vec<u8>> {
    match pattern_bit(word) {
        Some(bit) => {
            let value = u8::from(bit.set);
            Ok(format!(in alloc; "frame {} bit {} is {value}", bit.frame, bit.bit)?.into_bytes())
        }
        None => Ok(Vec::from_slice(alloc, b"none")?),
    }
}

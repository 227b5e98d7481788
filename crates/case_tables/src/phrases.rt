//! Texts of answers, in words and lines.

use anyhow::Result;
use std::alloc::Global;

/// The text of a fault with what it says.
pub fn fault(alloc: Global, name: &str, what: &[u8]) -> Result<Vec<u8>> {
    let mut text = Vec::from_slice(alloc, name.as_bytes())?;
    push_word(&mut text, what)?;
    Ok(text)
}

/// The text of a fault that says no more than its name.
pub fn plain_fault(alloc: Global, name: &str) -> Result<Vec<u8>> {
    Ok(Vec::from_slice(alloc, name.as_bytes())?)
}

/// Begins a line of this depth.
pub fn push_line(text: &mut Vec<u8>, depth: usize, word: &str) -> Result<()> {
    text.push(b'\n')?;
    for _ in 0..depth {
        text.push(b' ')?;
    }
    text.extend_from_slice(word.as_bytes())?;
    Ok(())
}

pub fn push_word(text: &mut Vec<u8>, word: &[u8]) -> Result<()> {
    text.push(b' ')?;
    text.extend_from_slice(word)?;
    Ok(())
}

pub fn push_number(alloc: Global, text: &mut Vec<u8>, number: u32) -> Result<()> {
    let digits = format!(in alloc; "{number}")?;
    push_word(text, digits.as_bytes())
}

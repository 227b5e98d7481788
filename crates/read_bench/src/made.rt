//! Databases that are made.

use anyhow::{Context, Result};
use std::alloc::Global;

// One mux of ten arcs.
fn push_mux(alloc: Global, text: &mut String, number: u32) -> Result<()> {
    let head = format!(in alloc; ".mux M{number}_H02E0001\n")?;
    text.push_str(&head)?;
    let frame = number % 100;
    for arc in 0..10u32 {
        let line = format!(in alloc; "V{arc}_S{number} F{frame}B{arc} !F{frame}B1{arc}\n")?;
        text.push_str(&line)?;
    }
    Ok(())
}

/// A database of as many muxes as a word says.
pub fn database(alloc: Global, muxes: &str) -> Result<Vec<u8>> {
    let muxes = muxes.parse::<u32>().context("a number is wanted")?;
    let mut text = String::new(alloc);
    for number in 0..muxes {
        push_mux(alloc, &mut text, number)?;
    }
    Ok(text.into_bytes())
}

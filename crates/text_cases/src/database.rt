//! Databases of tile types.

use anyhow::Result;
use bits_db::{DbError, EnumSetting, Mux, Pattern, TileDb, WordSetting};
use case_tables::{fault, plain_fault, push_line, push_word};
use std::alloc::Global;
use text_cut::PatternBit;

// Adds a bit as it is spelled.
fn push_bit(alloc: Global, text: &mut Vec<u8>, bit: &PatternBit) -> Result<()> {
    let sign = if bit.set { "" } else { "!" };
    let word = format!(in alloc; "{sign}F{}B{}", bit.frame, bit.bit)?;
    push_word(text, word.as_bytes())
}

// Adds the bits of a copy of a pattern, or `-`.
fn push_bits(alloc: Global, text: &mut Vec<u8>, bits: &Pattern) -> Result<()> {
    let copied = bits.copy()?;
    if copied.is_empty() {
        return push_word(text, b"-");
    }
    for bit in copied.as_slice() {
        push_bit(alloc, text, bit)?;
    }
    Ok(())
}

fn push_mux(alloc: Global, text: &mut Vec<u8>, mux: &Mux) -> Result<()> {
    push_line(text, 1, "mux")?;
    push_word(text, mux.sink.bytes())?;
    for arc in mux.arcs.as_slice() {
        push_line(text, 2, "arc")?;
        push_word(text, arc.source.bytes())?;
        push_bits(alloc, text, &arc.bits)?;
    }
    Ok(())
}

fn push_setting(alloc: Global, text: &mut Vec<u8>, setting: &WordSetting) -> Result<()> {
    push_line(text, 1, "word")?;
    push_word(text, setting.name.bytes())?;
    for bits in setting.bits.as_slice() {
        push_line(text, 2, "bits")?;
        push_bits(alloc, text, bits)?;
    }
    Ok(())
}

fn push_enum(alloc: Global, text: &mut Vec<u8>, setting: &EnumSetting) -> Result<()> {
    push_line(text, 1, "enum")?;
    push_word(text, setting.name.bytes())?;
    if let Some(default) = &setting.default {
        push_word(text, default.bytes())?;
    }
    for option in setting.options.as_slice() {
        push_line(text, 2, "option")?;
        push_word(text, option.value.bytes())?;
        push_bits(alloc, text, &option.bits)?;
    }
    Ok(())
}

// Adds the muxes and words, then the enums and fixed connections.
fn text_of(alloc: Global, db: &TileDb) -> Result<Vec<u8>> {
    let mut text = Vec::from_slice(alloc, b"database")?;
    for mux in db.muxes.as_slice() {
        push_mux(alloc, &mut text, mux)?;
    }
    for setting in db.words.as_slice() {
        push_setting(alloc, &mut text, setting)?;
    }
    for setting in db.enums.as_slice() {
        push_enum(alloc, &mut text, setting)?;
    }
    for fixed in db.fixed.as_slice() {
        push_line(&mut text, 1, "fixed")?;
        push_word(&mut text, fixed.sink.bytes())?;
        push_word(&mut text, fixed.source.bytes())?;
    }
    Ok(text)
}

fn text_of_error(alloc: Global, error: DbError) -> Result<Vec<u8>> {
    match error {
        DbError::BadLine(line) => {
            let number = format!(in alloc; "{line}")?;
            fault(alloc, "BadLine", number.as_bytes())
        }
        DbError::TooLarge(limit) => fault(alloc, "TooLarge", limit.text().as_bytes()),
        DbError::Memory => plain_fault(alloc, "Memory"),
    }
}

/// What the reader of databases answers: the muxes, words, enums and fixed connections, with the bits of each row.
pub fn answer_to(alloc: Global, bytes: &[u8]) -> Result<Vec<u8>> {
    match bits_db::read(alloc, bytes) {
        Ok(db) => text_of(alloc, &db),
        Err(error) => text_of_error(alloc, error),
    }
}

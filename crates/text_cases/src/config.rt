//! Configurations.

use anyhow::Result;
use case_tables::{fault, plain_fault};
use config_text::{Config, ConfigError, print, read};
use std::alloc::Global;

// The text of a configuration, or that of a copy where it differs.
fn text_of(alloc: Global, config: &Config) -> Result<Vec<u8>> {
    let text = print(alloc, config)?;
    let copied = print(alloc, &config.copy(alloc)?)?;
    if copied.as_slice() != text.as_slice() {
        return Ok(copied);
    }
    Ok(text)
}

// The text of a fault with the number of a line.
fn fault_at(alloc: Global, name: &str, line: u32) -> Result<Vec<u8>> {
    let number = format!(in alloc; "{line}")?;
    fault(alloc, name, number.as_bytes())
}

fn text_of_error(alloc: Global, error: ConfigError) -> Result<Vec<u8>> {
    match error {
        ConfigError::BadLine(line) => fault_at(alloc, "BadLine", line),
        ConfigError::OutsideBlock(line) => fault_at(alloc, "OutsideBlock", line),
        ConfigError::TooLarge(limit) => fault(alloc, "TooLarge", limit.text().as_bytes()),
        ConfigError::NoDevice => plain_fault(alloc, "NoDevice"),
        ConfigError::Memory => plain_fault(alloc, "Memory"),
    }
}

/// What the reader of configurations answers: the configuration as it is printed, or as its copy is where that differs.
pub fn answer_to(alloc: Global, bytes: &[u8]) -> Result<Vec<u8>> {
    match read(alloc, bytes) {
        Ok(config) => text_of(alloc, &config),
        Err(error) => text_of_error(alloc, error),
    }
}

//! Side files.

use anyhow::Result;
use case_tables::{fault, plain_fault};
use side_file::{Side, SideError};
use std::alloc::Global;

// The text of a side file without its line feed, and that of a copy where it differs.
fn text_of(alloc: Global, side: &Side) -> Result<Vec<u8>> {
    let mut text = side_file::print(alloc, side)?;
    let copy = side.copy(alloc)?;
    let copied = side_file::print(alloc, &copy)?;
    if copied.as_slice() != text.as_slice() {
        return Ok(copied);
    }
    let _ = text.pop();
    Ok(text)
}

fn text_of_error(alloc: Global, error: &SideError) -> Result<Vec<u8>> {
    match error {
        SideError::NotJson => plain_fault(alloc, "NotJson"),
        SideError::BadShape(key) => fault(alloc, "BadShape", key.bytes()),
        SideError::TooLarge(limit) => fault(alloc, "TooLarge", limit.text().as_bytes()),
        SideError::DuplicateName(name) => fault(alloc, "DuplicateName", name.bytes()),
        SideError::UnknownName(name) => fault(alloc, "UnknownName", name.bytes()),
        SideError::Unpaired(name) => fault(alloc, "Unpaired", name.bytes()),
        SideError::WrongDomain(name) => fault(alloc, "WrongDomain", name.bytes()),
        SideError::Memory => plain_fault(alloc, "Memory"),
    }
}

/// What the reader of side files answers: the side file as it is printed, or as its copy is where that differs.
pub fn answer_to(alloc: Global, bytes: &[u8]) -> Result<Vec<u8>> {
    match side_file::read(alloc, bytes) {
        Ok(side) => text_of(alloc, &side),
        Err(error) => text_of_error(alloc, &error),
    }
}

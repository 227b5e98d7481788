//! Texts of bytes, and wires by name as a report prints them.

ghost use Rattle.std.specs.Prelude.{◌≡◌, IfOk};

use crate::Name;
use std::alloc::{AllocError, Global};
use std::marker::Model;

/// Bytes of a text, which may be any bytes. Contracts see them as a list.
#[derive(Debug, Drop)]
pub struct Text {
    bytes: Vec<u8>,
}

impl Model for Text {
    ghost use Rattle.std.specs.Prelude.{List, ℕ};
    ghost use Rattle.std.specs.Coded.{coded_list, coded_ℕ};

    ghost Value = { List ℕ };

    ghost coded = { coded_list coded_ℕ };

    ghost view = { λ text. text.bytes.items };
}

impl Text {
    /// The text of these bytes, which are copied.
    pub fn new(alloc: Global, bytes: &[u8]) -> Result<Text, AllocError>
        ensures { IfOk result (λ text. text ≡ bytes.now) }
    {
        let bytes = Vec::from_slice(alloc, bytes)?;
        Ok(Text { bytes })
    }

    /// The text of a vector's bytes; takes no memory.
    pub fn from_vec(bytes: Vec<u8>) -> Text
        ensures { result ≡ bytes.items }
    {
        Text { bytes }
    }

    /// The bytes in order.
    pub fn bytes(&self) -> &[u8]
        ensures { result.now ≡ self.now }
    {
        &self.bytes
    }

    /// An equal text.
    pub fn copy(&self) -> Result<Text, AllocError>
        ensures { IfOk result (λ text. text ≡ self.now) }
    {
        Text::new(*self.bytes.allocator(), &self.bytes)
    }
}

/// A wire by name: one of a row and a column, which may lie outside the grid, or one of the whole device. Its
/// base is its name without a place.
#[derive(Debug, Drop)]
pub enum WireText {
    Local { row: i32, col: i32, base: Name },
    Wide(Name),
}

//! A table that doesn't mask another domain.

use circuit_parts::SourceId;

/// A table whose output pins that one other domain feeds change, with the least address that they lead to.
#[derive(Clone, Copy)]
pub struct Unmasked {
    pub part: SourceId,
    pub reached: u32,
}

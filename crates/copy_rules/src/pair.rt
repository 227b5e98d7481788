//! Two parts.

use circuit_parts::SourceId;

/// Two parts that are compared.
#[derive(Clone, Copy)]
pub(crate) struct Pair {
    pub first: SourceId,
    pub second: SourceId,
}

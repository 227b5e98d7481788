//! Why a graph has no rows.

use std::alloc::{AllocError, AllocFailed};
use thiserror::Error;

/// Why the muxes and arcs of a device have no rows.
#[derive(Clone, Copy, Debug, PartialEq, Eq, Error)]
pub enum RowsError {
    /// More muxes than a graph may have.
    #[error("too many muxes")]
    Muxes,
    /// More arcs than a graph may have, and no more muxes.
    #[error("too many arcs")]
    Arcs,
    #[error("out of memory")]
    Memory,
}

impl From<AllocError> for RowsError {
    ghost use Rattle.std.specs.Prelude.{◌≡◌};
    ghost use Rattle.graph_rows.specs.declared.errors.RowsError.TheVariants.{Memory};

    ghost from_gives = { λ _ e. e ≡ Memory };

    fn from(_error: AllocError) -> RowsError {
        RowsError::Memory
    }
}

impl<T: Drop> From<AllocFailed<T>> for RowsError {
    ghost use Rattle.std.specs.Prelude.{◌≡◌};
    ghost use Rattle.graph_rows.specs.declared.errors.RowsError.TheVariants.{Memory};

    ghost from_gives = { λ _ e. e ≡ Memory };

    fn from(_error: AllocFailed<T>) -> RowsError {
        RowsError::Memory
    }
}

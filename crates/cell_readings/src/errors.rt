//! Why an image has no cells.

use rr_ids::{Name, Text};
use std::alloc::{AllocError, AllocFailed};
use thiserror::Error;

/// Why an image has no cells: the first fault.
#[derive(Debug, Drop, Error)]
pub enum CellError {
    /// The name of a cell whose tile or kind isn't there, or whose tile has no row and column.
    #[error("an unknown site")]
    UnknownSite(Name),
    /// The first name of a triple of slices of unequal shape.
    #[error("another shape")]
    ShapeDiffers(Name),
    /// A cell, one of its settings and its value, which isn't modelled; `?` stands for a value that isn't there.
    #[error("not modelled")]
    Unmodelled(Name, Text, Text),
    /// The tile and the kind of a pad without a name that drives out of the fabric.
    #[error("an unnamed pad")]
    UnnamedPad(Name, Name),
    #[error("out of memory")]
    Memory,
}

impl From<AllocError> for CellError {
    ghost use Rattle.cell_readings.specs.declared.errors.CellError.TheVariants.{Memory};
    ghost use Rattle.std.specs.Prelude.{◌≡◌};

    ghost from_gives = { λ _ e. e ≡ Memory };

    fn from(_error: AllocError) -> CellError {
        CellError::Memory
    }
}

impl<T: Drop> From<AllocFailed<T>> for CellError {
    ghost use Rattle.cell_readings.specs.declared.errors.CellError.TheVariants.{Memory};
    ghost use Rattle.std.specs.Prelude.{◌≡◌};

    ghost from_gives = { λ _ e. e ≡ Memory };

    fn from(_error: AllocFailed<T>) -> CellError {
        CellError::Memory
    }
}

//! Why the wires of a device aren't numbered.

use std::alloc::{AllocError, AllocFailed};
use thiserror::Error;
use wire_names::NamesError;

/// Why the wires of a device aren't numbered.
#[derive(Clone, Copy, Debug, PartialEq, Eq, Error)]
pub enum WiresError {
    /// The device names more than 16,777,216 wires.
    #[error("too many wires")]
    TooMany,
    #[error("out of memory")]
    Memory,
}

impl From<AllocError> for WiresError {
    ghost use Rattle.std.specs.Prelude.{◌≡◌};
    ghost use Rattle.device_wires.specs.declared.errors.WiresError.TheVariants.{Memory};

    ghost from_gives = { λ _ e. e ≡ Memory };

    fn from(_error: AllocError) -> WiresError {
        WiresError::Memory
    }
}

impl<T: Drop> From<AllocFailed<T>> for WiresError {
    ghost use Rattle.std.specs.Prelude.{◌≡◌};
    ghost use Rattle.device_wires.specs.declared.errors.WiresError.TheVariants.{Memory};

    ghost from_gives = { λ _ e. e ≡ Memory };

    fn from(_error: AllocFailed<T>) -> WiresError {
        WiresError::Memory
    }
}

impl From<NamesError> for WiresError {
    ghost use Rattle.std.specs.Prelude.{◌≡◌};
    ghost use Rattle.device_wires.specs.Errors.{error_of};

    ghost from_gives = { λ e r. r ≡ error_of e };

    fn from(error: NamesError) -> WiresError {
        match error {
            NamesError::Full => WiresError::TooMany,
            NamesError::Memory => WiresError::Memory,
        }
    }
}

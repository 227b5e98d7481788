//! Why a configuration isn't read.

use rr_ids::Limit;
use std::alloc::{AllocError, AllocFailed};
use thiserror::Error;

/// Why a configuration isn't read.
#[derive(Clone, Copy, Debug, PartialEq, Eq, Error)]
pub enum ConfigError {
    /// The number of the first line outside the grammar, from 1.
    #[error("line {0} is outside the grammar")]
    BadLine(u32),
    /// The number of the first line of a block that isn't modelled, from 1.
    #[error("line {0} begins a block that isn't modelled")]
    OutsideBlock(u32),
    /// A limit that is passed.
    #[error("too many: {0}")]
    TooLarge(Limit),
    /// No line names the device.
    #[error("no line names the device")]
    NoDevice,
    #[error("out of memory")]
    Memory,
}

impl From<AllocError> for ConfigError {
    ghost use Rattle.std.specs.Prelude.{◌≡◌};
    ghost use Rattle.config_text.specs.declared.errors.ConfigError.TheVariants.{Memory};

    ghost from_gives = { λ _ e. e ≡ Memory };

    fn from(_error: AllocError) -> ConfigError {
        ConfigError::Memory
    }
}

impl<T: Drop> From<AllocFailed<T>> for ConfigError {
    ghost use Rattle.std.specs.Prelude.{◌≡◌};
    ghost use Rattle.config_text.specs.declared.errors.ConfigError.TheVariants.{Memory};

    ghost from_gives = { λ _ e. e ≡ Memory };

    fn from(_error: AllocFailed<T>) -> ConfigError {
        ConfigError::Memory
    }
}

//! Why links aren't joined.

use std::alloc::{AllocError, AllocFailed};
use thiserror::Error;
use wire_contests::Contest;

/// Why links aren't joined.
#[derive(Clone, Copy, Debug, PartialEq, Eq, Error)]
pub enum LinksError {
    /// Two drivers contest a wire: the least such wire, with the two least that drive it.
    #[error("two drivers of one wire")]
    Contested(Contest),
    #[error("out of memory")]
    Memory,
}

impl From<AllocError> for LinksError {
    ghost use Rattle.std.specs.Prelude.{◌≡◌};
    ghost use Rattle.wire_links.specs.declared.error.LinksError.TheVariants.{Memory};

    ghost from_gives = { λ _ e. e ≡ Memory };

    fn from(_error: AllocError) -> LinksError {
        LinksError::Memory
    }
}

impl<T: Drop> From<AllocFailed<T>> for LinksError {
    ghost use Rattle.std.specs.Prelude.{◌≡◌};
    ghost use Rattle.wire_links.specs.declared.error.LinksError.TheVariants.{Memory};

    ghost from_gives = { λ _ e. e ≡ Memory };

    fn from(_error: AllocFailed<T>) -> LinksError {
        LinksError::Memory
    }
}

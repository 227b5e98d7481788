//! Why a routing isn't live.

use rr_ids::MuxId;
use std::alloc::{AllocError, AllocFailed};
use thiserror::Error;
use wire_contests::Contest;

/// Why a routing isn't live.
#[derive(Clone, Copy, Debug, PartialEq, Eq, Error)]
pub enum LiveError {
    /// The lines of a mux differ from its chosen arcs: the mux of the least name, by tile, then by sink.
    #[error("arcs differ from lines")]
    ArcDiffers(MuxId),
    /// Two drivers contest a wire: the least such wire, with the two least that drive it.
    #[error("two drivers of one wire")]
    Contested(Contest),
    #[error("out of memory")]
    Memory,
}

impl From<AllocError> for LiveError {
    ghost use Rattle.std.specs.Prelude.{◌≡◌};
    ghost use Rattle.live_routing.specs.declared.error.LiveError.TheVariants.{Memory};

    ghost from_gives = { λ _ e. e ≡ Memory };

    fn from(_error: AllocError) -> LiveError {
        LiveError::Memory
    }
}

impl<T: Drop> From<AllocFailed<T>> for LiveError {
    ghost use Rattle.std.specs.Prelude.{◌≡◌};
    ghost use Rattle.live_routing.specs.declared.error.LiveError.TheVariants.{Memory};

    ghost from_gives = { λ _ e. e ≡ Memory };

    fn from(_error: AllocFailed<T>) -> LiveError {
        LiveError::Memory
    }
}

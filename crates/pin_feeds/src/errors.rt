//! Why the feeds of pins aren't told.

use circuit_parts::PinId;
use rr_ids::WireId;
use std::alloc::{AllocError, AllocFailed};
use thiserror::Error;

/// A pin with its feed, which is no output of a named cell.
#[derive(Clone, Copy, Debug, PartialEq, Eq)]
pub struct UnnamedFeed {
    pub pin: PinId,
    pub feed: WireId,
}

/// Why the feeds of pins aren't told.
#[derive(Clone, Copy, Debug, PartialEq, Eq, Error)]
pub enum FeedError {
    /// A pin's feed is no output of a named cell: the least such pin, by part, then by number.
    #[error("a pin is fed by an unnamed cell")]
    Unnamed(UnnamedFeed),
    #[error("out of memory")]
    Memory,
}

impl From<AllocError> for FeedError {
    ghost use Rattle.std.specs.Prelude.{◌≡◌};
    ghost use Rattle.pin_feeds.specs.declared.errors.FeedError.TheVariants.{Memory};

    ghost from_gives = { λ _ e. e ≡ Memory };

    fn from(_error: AllocError) -> FeedError {
        FeedError::Memory
    }
}

impl<T: Drop> From<AllocFailed<T>> for FeedError {
    ghost use Rattle.std.specs.Prelude.{◌≡◌};
    ghost use Rattle.pin_feeds.specs.declared.errors.FeedError.TheVariants.{Memory};

    ghost from_gives = { λ _ e. e ≡ Memory };

    fn from(_error: AllocFailed<T>) -> FeedError {
        FeedError::Memory
    }
}
